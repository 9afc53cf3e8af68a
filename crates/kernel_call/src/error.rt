// Why a kernel call is refused.
ghost use Rattle.std.specs.Prelude.{◌≡◌};

use call_table::Reply;
use mail_slots::MailRefusal;
use page_map::MapRefusal;
use thiserror::Error;

/// Why a kernel call is refused: the first of these that is so.
#[derive(Clone, Copy, Debug, PartialEq, Eq, Error)]
pub enum CallError {
    #[error("no call has this number")]
    BadCall,
    #[error("no slot has this number")]
    BadSlot,
    #[error("the slot is empty")]
    Empty,
    #[error("the slot is in use")]
    Used,
    #[error("a capability of another kind is wanted")]
    WrongKind,
    #[error("these rights may not be given")]
    BadRights,
    #[error("the address is not aligned, or nothing is mapped there")]
    BadAddress,
    #[error("something is mapped or installed already")]
    Mapped,
    #[error("no table is installed for the address")]
    NoTable,
    #[error("no frame is free")]
    NoFrame,
    #[error("no more bytes can be printed")]
    OutputFull,
    #[error("a page is mapped through the table")]
    InUse,
    #[error("eight threads are live")]
    NoThread,
    #[error("no mailbox of this number leads from the domain, or to it")]
    NoBox,
    #[error("sixteen words wait to be sent")]
    BoxFull,
    #[error("no word is left in the mailbox")]
    NoMail,
}

impl CallError {
    ghost use Rattle.std.specs.Prelude.{◌≡◌};
    ghost use Rattle.kernel_call.specs.Facts.{code_of};

    /// The code of its reply, 1 to 16.
    pub fn code(self) -> u32
        ensures value { result ≡ code_of self }
    {
        match self {
            CallError::BadCall => 1,
            CallError::BadSlot => 2,
            CallError::Empty => 3,
            CallError::Used => 4,
            CallError::WrongKind => 5,
            CallError::BadRights => 6,
            CallError::BadAddress => 7,
            CallError::Mapped => 8,
            CallError::NoTable => 9,
            CallError::NoFrame => 10,
            CallError::OutputFull => 11,
            CallError::InUse => 12,
            CallError::NoThread => 13,
            CallError::NoBox => 14,
            CallError::BoxFull => 15,
            CallError::NoMail => 16,
        }
    }

    /// The reply of a call that is refused so.
    pub fn reply(self) -> Reply
        ensures value { result ≡ record { code = code_of self; value = 0 } }
    {
        Reply {
            code: self.code(),
            value: 0,
        }
    }
}

/// The same refusal of a call.
pub fn refusal_error(refusal: MapRefusal) -> CallError
    ensures value { code_of result ≡ error_of refusal }
{
    match refusal {
        MapRefusal::BadAddress => CallError::BadAddress,
        MapRefusal::Mapped => CallError::Mapped,
        MapRefusal::NoTable => CallError::NoTable,
    }
}

/// The same refusal of a call on mailboxes.
pub fn mail_error(refusal: MailRefusal) -> CallError
    ensures value { code_of result ≡ spec_mail_error refusal }
{
    match refusal {
        MailRefusal::NoBox => CallError::NoBox,
        MailRefusal::BoxFull => CallError::BoxFull,
        MailRefusal::NoMail => CallError::NoMail,
    }
}

ghost use Rattle.call_table.specs.Calls.{error_of};
ghost use Rattle.call_table.specs.Mail.{mail_error as spec_mail_error};
ghost use Rattle.kernel_call.specs.Facts.{code_of};
