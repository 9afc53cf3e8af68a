// Why a call is refused.
use thiserror::Error;

/// Why no word is sent, or none received.
#[derive(Clone, Copy, Debug, PartialEq, Eq, Error)]
pub enum MailRefusal {
    /// No box of this number is one from the sender, or to the receiver.
    #[error("there is no such box")]
    NoBox,
    /// The sender has put 16 words into the box since its slot began.
    #[error("the box is full")]
    BoxFull,
    /// No word is left of those that came in the box.
    #[error("there is no mail")]
    NoMail,
}
