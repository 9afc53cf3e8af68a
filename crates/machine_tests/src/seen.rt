// What the tests compare of a domain's view.
use call_table::{DomainStatus, Reply};
use domain_view::View;

#[derive(Clone, Copy, Debug, PartialEq, Eq)]
pub struct Seen {
    pub status: DomainStatus,
    pub retired: u64,
    pub pc: u32,
    /// The first and the last.
    pub readings: (u64, u64),
    /// How many, and the last.
    pub replies: (u64, Reply),
    pub printed: usize,
    pub pool: usize,
    pub frame: u32,
    /// A word of the last page.
    pub word: u32,
}

pub fn told(view: &View<'_>) -> Option<Seen> {
    if view.readings() == 0 || view.replies() == 0 || view.pool_len() < 10 {
        return None;
    }
    let pc = view.thread(0).pc;
    Some(Seen {
        status: view.status(),
        retired: view.retired(),
        pc,
        readings: (view.reading(0), view.last_reading()),
        replies: (view.replies(), view.last_reply()),
        printed: view.printed().len(),
        pool: view.pool_len(),
        frame: view.pool_frame(9).number(),
        word: view.pool_word(9, 256),
    })
}
