// Physical memory: its words, and the calls that read and write parts of them.
// A frame's words are kept in a slot from its first write on, until it is zeroed:
// so no time is spent on words that no one writes.
ghost use Rattle.std.specs.Prelude.{◌≡◌, ◌≢◌, ℕ, ◌+◌, ◌*◌, ◌/◌, ◌%◌, ◌^◌, ◌<◌, ◌≤◌, true, false, length, slice_set, IfOk};
ghost use Rattle.byteorder.specs.Endian.{little_bytes};
ghost use Rattle.tp_base.specs.Table.{empty};
ghost use Rattle.phys_mem.specs.Address.{frame_of, word_place};
ghost use Rattle.phys_mem.specs.Bytes.{byte_in, half_in, with_byte_in, with_half_in};
ghost use Rattle.phys_mem.specs.Contents.{Contents, frame_words, word_of, word_at, byte_at, half_at, with_word, with_byte, with_half, zeroed, zeroed_words, all_zero, zeros, is_marked, marks};
ghost use Rattle.phys_mem.specs.Mem.{Mem, word, written, zeroed_frame};
ghost use Rattle.phys_mem.specs.Holds.{Holds};

use byteorder::{ByteOrder, LittleEndian};
use std::alloc::Global;
use std::marker::Model;
use tp_base::{FrameNo, Memory, Zero};

// Words of a frame, and of a slot.
const FRAME_WORDS: usize = 1024;

// Bytes of a frame.
const FRAME_BYTES: usize = 4096;

// The slot of all frames that have the mark. No one writes into it.
const ZERO_SLOT: u32 = 0;

/// A memory of frames of 4,096 bytes, from address 0 on. All its room is
/// reserved when it is made, so that no later call fails for want of memory.
/// A frame has the mark 'zero' from the time it is made or zeroed to the next
/// write into it.
#[derive(Drop)]
pub struct PhysMem {
    // for each frame the slot that has its words
    slots: Vec<u32>,
    // slots that no frame has now
    unused: Vec<u32>,
    // the words of slot 0, which read zero, and of each slot that was ever needed
    words: Vec<u32>,
}

impl Model for PhysMem {
    ghost use Rattle.std.specs.Prelude.{length, vec_capacity};
    ghost use Rattle.phys_mem.specs.Contents.{Contents};
    ghost use Rattle.phys_mem.specs.Slots.{held, AreSlots, HaveRoom};

    ghost Value = { Contents };

    ghost view = { λ m. held m.slots.items m.words.items };

    ghost invariant = { λ m. AreSlots m.slots.items m.unused.items m.words.items
        × HaveRoom (length m.slots.items) (vec_capacity m.unused) (vec_capacity m.words) };
}

impl PhysMem {
    /// A memory of so many frames, up to 2^20, all of which read zero: 32-bit
    /// addresses name the bytes of so many.
    ///
    /// # Errors
    /// `Memory` where no memory is left for it.
    pub fn new(alloc: Global, frames: u32) -> Result<Self, Memory>
        requires few { frames ≤ 2 ^ 20 }
        ensures zero { IfOk result (λ memory. memory ≡ all_zero frames) }
        ensures holds { IfOk result (λ memory. Holds memory empty) }
    {
        let count = frames as usize;
        let slots = vec![in alloc; ZERO_SLOT; count]?;
        let unused = Vec::with_capacity(alloc, count)?;
        let mut words = Vec::with_capacity(alloc, FRAME_WORDS * (1 + count))?;
        words.resize(FRAME_WORDS, 0).unwrap();
        Ok(PhysMem {
            slots,
            unused,
            words,
        })
    }

    /// The number of its frames, up to 2^20.
    pub fn frames(&self) -> u32
        ensures value { result ≡ self.now.frames }
        ensures range { result ≤ 2 ^ 20 }
        ensures words { length self.now.words ≡ 1024 * result }
        ensures marked { length self.now.marked ≡ result }
    {
        let _ = &self.words;
        self.slots.len() as u32
    }

    /// The number of frames that have the mark, each of which reads zero.
    pub fn zeros(&self) -> u32
        ensures value { result ≡ marks self.now }
        ensures zero { (frame : ℕ) → is_marked self.now frame ≡ true
            → frame_words self.now frame ≡ zeros 1 }
        ensures range { result ≤ self.now.frames }
    {
        let made = self.words.len() / FRAME_WORDS;
        (self.slots.len() + self.unused.len() + 1 - made) as u32
    }

    /// Whether a frame has the mark: it was not written since it was new or
    /// zeroed, so it reads zero. Others may, too.
    pub fn is_blank(&self, frame: FrameNo) -> bool
        requires frame { frame < self.now.frames }
        ensures value { result ≡ is_marked self.now frame }
        ensures zero { result ≡ true → frame_words self.now frame ≡ zeros 1 }
    {
        let _ = &self.unused;
        let _ = &self.words;
        self.slots[frame.number() as usize] == ZERO_SLOT
    }

    /// The words of a frame, in order.
    pub fn words_of(&self, frame: FrameNo) -> &[u32]
        requires frame { frame < self.now.frames }
        ensures value { result.now ≡ frame_words self.now frame }
        ensures whole { length result.now ≡ 1024 }
    {
        let slot = self.slots[frame.number() as usize] as usize;
        let start = FRAME_WORDS * slot;
        &self.words[start..start + FRAME_WORDS]
    }

    /// The word at an address, a multiple of 4, in memory.
    #[inline(always)]
    pub fn read_word(&self, at: u32) -> u32
        requires within { frame_of at < self.now.frames }
        requires aligned { at % 4 ≡ 0 }
        ensures value { result ≡ word_at self.now at }
        ensures holds { (mem : Mem) → Holds self.now mem
            → result ≡ word mem (frame_of at) (word_place at) }
    {
        self.word(at)
    }

    /// Writes the word at an address, a multiple of 4, in memory; every other
    /// word stays.
    pub fn write_word(&mut self, at: u32, word: u32)
        requires within { frame_of at < self.old.frames }
        requires aligned { at % 4 ≡ 0 }
        ensures becomes { self.new ≡ with_word self.old at word }
        ensures frames { self.new.frames ≡ self.old.frames }
        ensures others { (frame : ℕ) → frame ≢ frame_of at
            → frame_words self.new frame ≡ frame_words self.old frame }
        ensures stored { word_at self.new at ≡ word }
        ensures bytes { (address : ℕ) → address / 4 ≢ at / 4
            → byte_at self.new address ≡ byte_at self.old address }
        ensures holds { (mem : Mem) → Holds self.old mem
            → Holds self.new (written mem (frame_of at) (word_place at) word) }
    {
        self.set_word(at, word);
    }

    /// The half at an even address in memory.
    pub fn read_half(&self, at: u32) -> u16
        requires within { frame_of at < self.now.frames }
        requires aligned { at % 2 ≡ 0 }
        ensures value { result ≡ half_at self.now at }
        ensures holds { (mem : Mem) → Holds self.now mem
            → result ≡ half_in (word mem (frame_of at) (word_place at)) (at % 4) }
    {
        half_of(self.word(at), at % 4)
    }

    /// Writes the half at an even address in memory; every other half stays.
    pub fn write_half(&mut self, at: u32, half: u16)
        requires within { frame_of at < self.old.frames }
        requires aligned { at % 2 ≡ 0 }
        ensures becomes { self.new ≡ with_half self.old at half }
        ensures frames { self.new.frames ≡ self.old.frames }
        ensures others { (frame : ℕ) → frame ≢ frame_of at
            → frame_words self.new frame ≡ frame_words self.old frame }
        ensures stored { half_at self.new at ≡ half }
        ensures bytes { (address : ℕ) → address / 2 ≢ at / 2
            → byte_at self.new address ≡ byte_at self.old address }
        ensures holds { (mem : Mem) → Holds self.old mem
            → Holds self.new (written mem (frame_of at) (word_place at)
            (with_half_in (word mem (frame_of at) (word_place at)) (at % 4) half)) }
    {
        let word = self.word(at);
        self.set_word(at, with_half_of(word, at % 4, half));
    }

    /// The byte at an address in memory.
    pub fn read_byte(&self, at: u32) -> u8
        requires within { frame_of at < self.now.frames }
        ensures value { result ≡ byte_at self.now at }
        ensures holds { (mem : Mem) → Holds self.now mem
            → result ≡ byte_in (word mem (frame_of at) (word_place at)) (at % 4) }
    {
        byte_of(self.word(at), at % 4)
    }

    /// Writes the byte at an address in memory; every other byte stays.
    pub fn write_byte(&mut self, at: u32, byte: u8)
        requires within { frame_of at < self.old.frames }
        ensures becomes { self.new ≡ with_byte self.old at byte }
        ensures frames { self.new.frames ≡ self.old.frames }
        ensures others { (frame : ℕ) → frame ≢ frame_of at
            → frame_words self.new frame ≡ frame_words self.old frame }
        ensures stored { byte_at self.new at ≡ byte }
        ensures bytes { (address : ℕ) → address ≢ at
            → byte_at self.new address ≡ byte_at self.old address }
        ensures holds { (mem : Mem) → Holds self.old mem
            → Holds self.new (written mem (frame_of at) (word_place at)
            (with_byte_in (word mem (frame_of at) (word_place at)) (at % 4) byte)) }
    {
        let word = self.word(at);
        self.set_word(at, with_byte_of(word, at % 4, byte));
    }

    // The word that an address lies in.
    #[inline(always)]
    fn word(&self, at: u32) -> u32
        requires within { frame_of at < self.now.frames }
        ensures value { result ≡ word_at self.now at }
        ensures holds { (mem : Mem) → Holds self.now mem
            → result ≡ word mem (frame_of at) (word_place at) }
    {
        let slot = self.slots[at as usize / FRAME_BYTES] as usize;
        self.words[FRAME_WORDS * slot + at as usize % FRAME_BYTES / 4]
    }

    // Writes the word that an address lies in.
    fn set_word(&mut self, at: u32, word: u32)
        requires within { frame_of at < self.old.frames }
        ensures becomes { self.new ≡ with_word self.old at word }
        ensures stored { word_at self.new at ≡ word }
        ensures words { (address : ℕ) → address / 4 ≢ at / 4
            → word_at self.new address ≡ word_at self.old address }
        ensures others { (frame : ℕ) → frame ≢ frame_of at
            → frame_words self.new frame ≡ frame_words self.old frame }
        ensures holds { (mem : Mem) → Holds self.old mem
            → Holds self.new (written mem (frame_of at) (word_place at) word) }
    {
        self.put(at, word);
    }

    // Writes the word that an address lies in, where the frame has a slot of its
    // own or gets one.
    fn put(&mut self, at: u32, word: u32)
        requires within { frame_of at < self.old.frames }
        ensures becomes { self.new ≡ with_word self.old at word }
        ensures size { length self.old.words ≡ 1024 * self.old.frames }
    {
        let frame = at as usize / FRAME_BYTES;
        self.unmark(frame);
        let slot = self.slots[frame] as usize;
        self.words[FRAME_WORDS * slot + at as usize % FRAME_BYTES / 4] = word;
    }

    // Sees that a frame has a slot of its own.
    #[inline(always)]
    fn unmark(&mut self, frame: usize)
        requires within { frame < self.old.frames }
        ensures becomes { self.new ≡ record self.old { marked = slice_set self.old.marked frame false } }
    {
        if self.slots[frame] == ZERO_SLOT {
            self.take_slot(frame);
        }
    }

    // Gives a frame that has the mark a slot of its own, which reads zero.
    #[cold]
    #[inline(never)]
    fn take_slot(&mut self, frame: usize)
        requires within { frame < self.old.frames }
        requires marked { is_marked self.old frame ≡ true }
        ensures becomes { self.new ≡ record self.old { marked = slice_set self.old.marked frame false } }
    {
        match self.unused.pop() {
            Some(slot) => {
                zero_words(&mut self.words, slot as usize);
                self.slots[frame] = slot;
            }
            None => {
                let slot = self.words.len() / FRAME_WORDS;
                self.words.resize(FRAME_WORDS * (slot + 1), 0).unwrap();
                self.slots[frame] = slot as u32;
            }
        }
    }

    // Sets a frame's mark, and takes back its slot.
    fn give_slot(&mut self, frame: usize)
        requires within { frame < self.old.frames }
        ensures becomes { self.new ≡ zeroed self.old frame }
        ensures marked { is_marked self.new frame ≡ true }
        ensures size { length self.old.words ≡ 1024 * self.old.frames }
    {
        let slot = self.slots[frame];
        if slot == ZERO_SLOT {
            return;
        }
        self.slots[frame] = ZERO_SLOT;
        self.unused.push_reserved(slot);
    }
}

impl Zero for PhysMem {
    ghost has_frame = { λ memory frame. frame < memory.frames };

    ghost word = { λ memory frame place. word_of memory frame place };

    ghost zeroed = { λ memory frame. zeroed memory frame };

    fn zero_frame(&mut self, frame: FrameNo)
        requires within { frame < self.old.frames }
        ensures becomes { self.new ≡ zeroed self.old frame }
        ensures zero { (i : ℕ) → word_of self.new frame i ≡ 0 }
        ensures others { (f i : ℕ) → f ≢ frame → word_of self.new f i ≡ word_of self.old f i }
        ensures in_memory { (f : ℕ) → f < self.old.frames → f < self.new.frames }
        ensures marked { is_marked self.new frame ≡ true }
        ensures holds { (mem : Mem) → Holds self.old mem → Holds self.new (zeroed_frame mem frame) }
    {
        self.give_slot(frame.number() as usize);
    }
}

fn zero_words(words: &mut [u32], slot: usize)
    requires within { 1024 * slot + 1024 ≤ length words.old }
    ensures becomes { words.new ≡ zeroed_words words.old slot }
{
    let start = FRAME_WORDS * slot;
    words[start..start + FRAME_WORDS].fill(0);
}

fn bytes_of(word: u32) -> [u8; 4]
    ensures value { result ≡ little_bytes 4 word }
{
    let mut bytes = [0; 4];
    LittleEndian::write_u32(&mut bytes, word);
    bytes
}

#[tactic(auto, unfolding(crate::specs::Bytes::half_in))]
fn half_of(word: u32, place: u32) -> u16
    requires place { place ≤ 2 }
    ensures value { result ≡ half_in word place }
{
    LittleEndian::read_u16(&bytes_of(word)[place as usize..])
}

#[tactic(auto, unfolding(crate::specs::Bytes::with_half_in))]
fn with_half_of(word: u32, place: u32, half: u16) -> u32
    requires place { place ≤ 2 }
    ensures value { result ≡ with_half_in word place half }
{
    let mut bytes = bytes_of(word);
    LittleEndian::write_u16(&mut bytes[place as usize..], half);
    LittleEndian::read_u32(&bytes)
}

#[tactic(auto, unfolding(crate::specs::Bytes::byte_in))]
fn byte_of(word: u32, place: u32) -> u8
    requires place { place < 4 }
    ensures value { result ≡ byte_in word place }
{
    bytes_of(word)[place as usize]
}

#[tactic(auto, unfolding(crate::specs::Bytes::with_byte_in))]
fn with_byte_of(word: u32, place: u32, byte: u8) -> u32
    requires place { place < 4 }
    ensures value { result ≡ with_byte_in word place byte }
{
    let mut bytes = bytes_of(word);
    bytes[place as usize] = byte;
    LittleEndian::read_u32(&bytes)
}
