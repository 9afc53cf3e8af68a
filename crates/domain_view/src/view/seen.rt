// What a view tells of its domain.
use super::View;
use call_table::{DomainStatus, Reply};
use kernel_call::Domain;
use phys_mem::PhysMem;
use thread_set::Thread;
use tp_base::FrameNo;

impl<'a> View<'a> {
    ghost use Rattle.std.specs.Prelude.{◌≡◌, ◌<◌, true, min, Some, length, slice_get, slice_index, [], slice_index_or};
    ghost use Rattle.std.specs.List.{All};
    ghost use Rattle.phys_mem.specs.Contents.{zeros};
    ghost use Rattle.frame_colours.specs.Colours.{pool};
    ghost use Rattle.kernel_call.specs.LogModel.{log_model};
    ghost use Rattle.kernel_call.specs.Logs.{IsKept};
    ghost use Rattle.world_view.specs.Seen.{seen_of};
    ghost use Rattle.domain_view.specs.Models.{view_model};

    /// What can be seen of a domain whose frames are in this memory.
    pub fn new(domain: &'a Domain, memory: &'a PhysMem) -> Self
        requires in_memory { All (λ f. f < memory.now.frames) (pool domain.now.pool.share) }
        requires readings { IsKept (log_model domain.now.readings) }
        requires replies { IsKept (log_model domain.now.replies) }
        ensures view { view_model result ≡ seen_of domain.now memory.now }
    {
        View { domain, memory }
    }

    pub fn status(&self) -> DomainStatus
        ensures value { result ≡ (view_model self.now).status }
    {
        self.domain.status
    }

    /// How many instructions have retired.
    pub fn retired(&self) -> u64
        ensures value { result ≡ (view_model self.now).retired }
    {
        self.domain.retired
    }

    /// A thread by its number, below 8.
    pub fn thread(&self, t: u8) -> Thread
        requires below { t < 8 }
        ensures value { slice_get (view_model self.now).threads t ≡ Some result }
    {
        self.domain.threads.thread(t)
    }

    /// How many counters were read.
    pub fn readings(&self) -> u64
        ensures value { result ≡ (view_model self.now).readings.count }
    {
        self.domain.readings.count
    }

    /// One of the first 256 readings, which are kept.
    pub fn reading(&self, i: u32) -> u64
        requires kept { i < min 256 (view_model self.now).readings.count }
        ensures value { slice_get (view_model self.now).readings.first i ≡ Some result }
    {
        self.domain.readings.first[i as usize]
    }

    /// The last reading.
    pub fn last_reading(&self) -> u64
        requires some { 0 < (view_model self.now).readings.count }
        ensures value { (view_model self.now).readings.last ≡ Some result }
    {
        self.domain.readings.last.unwrap()
    }

    /// How many replies kernel calls have given.
    pub fn replies(&self) -> u64
        ensures value { result ≡ (view_model self.now).replies.count }
    {
        self.domain.replies.count
    }

    /// One of the first 256 replies, which are kept.
    pub fn reply(&self, i: u32) -> Reply
        requires kept { i < min 256 (view_model self.now).replies.count }
        ensures value { slice_get (view_model self.now).replies.first i ≡ Some result }
    {
        self.domain.replies.first[i as usize]
    }

    /// The last reply.
    pub fn last_reply(&self) -> Reply
        requires some { 0 < (view_model self.now).replies.count }
        ensures value { (view_model self.now).replies.last ≡ Some result }
    {
        self.domain.replies.last.unwrap()
    }

    /// The bytes that it printed.
    pub fn printed(&self) -> &[u8]
        ensures value { result.now ≡ (view_model self.now).printed }
    {
        self.domain.printed.as_slice()
    }

    /// How many frames its pool has.
    pub fn pool_len(&self) -> usize
        ensures value { result ≡ length (view_model self.now).pool }
    {
        self.domain.pool.frames().len()
    }

    /// A frame of its pool, by its place: they ascend.
    pub fn pool_frame(&self, i: usize) -> FrameNo
        requires place { i < length (view_model self.now).pool }
        ensures value { slice_get (view_model self.now).pool i ≡ Some result }
    {
        self.domain.pool.frames()[i]
    }

    /// Whether the frame at a place of its pool has the mark 'zero', so that all its
    /// words are zero.
    pub fn pool_frame_is_blank(&self, i: usize) -> bool
        requires frame { i < length (view_model self.now).pool }
        ensures zero { result ≡ true → slice_index_or (view_model self.now).frames i [] ≡ zeros 1 }
    {
        // This tells the prover alone that all words are in the memory's frames.
        self.memory.frames();
        self.memory.is_blank(self.domain.pool.frames()[i])
    }

    /// The words of the frame at a place of its pool, in order.
    pub fn pool_words(&self, i: usize) -> &[u32]
        requires frame { i < length (view_model self.now).pool }
        ensures value { result.now ≡ slice_index_or (view_model self.now).frames i [] }
    {
        // This tells the prover alone that all words are in the memory's frames.
        self.memory.frames();
        self.memory.words_of(self.domain.pool.frames()[i])
    }

    /// Word `w` of the frame at a place of its pool.
    #[inline(always)]
    pub fn pool_word(&self, i: usize, w: u32) -> u32
        requires frame { i < length (view_model self.now).pool }
        requires word { w < 1024 }
        ensures value { result ≡ slice_index (slice_index_or (view_model self.now).frames i []) w }
        ensures whole { length (slice_index_or (view_model self.now).frames i []) ≡ 1024 }
    {
        // This tells the prover alone that all words are in the memory's frames.
        self.memory.frames();
        let frame = self.domain.pool.frames()[i].number();
        self.memory.read_word(4096 * frame + 4 * w)
    }
}
