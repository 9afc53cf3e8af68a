// The operations of the kernel, by number: its calls, and what it does besides.
ghost use Rattle.std.specs.Prelude.{◌≡◌, ◌<◌, ◌^◌, ◌&&◌, not, true, false, IfSome, IfNone, if◌then◌else◌};
ghost use Rattle.kernel_clone.specs.Footprints.{call_number};
ghost use Rattle.kernel_clone.specs.Permissions as spec;
ghost use Rattle.kernel_clone.specs.Permissions.{may_make, calls_end};

/// The operation of an interrupt's delivery.
pub const DELIVERY: u8 = 15;
/// A domain leaves, at a switch.
pub const LEAVE: u8 = 16;
/// A domain enters, at a switch.
pub const ENTER: u8 = 17;
/// A call that is none.
pub const BAD_CALL: u8 = 18;

/// Above the number of each call.
pub const CALLS_END: u32 = 21;

/// Every call, a bit each: bit n is that of call n.
pub const EVERY_CALL: u32 = 0x18_7fff;

/// Whether a number is that of a call on mailboxes.
pub fn is_mail(number: u32) -> bool
    ensures value { result ≡ spec.is_mail number }
{
    number == 19 || number == 20
}

/// Whether a number is a call's.
pub fn is_call(number: u32) -> bool
    ensures value { result ≡ spec.is_call number }
{
    number <= 14 || is_mail(number)
}

/// Whether these calls, a bit each, have the one with this number.
#[tactic(auto, unfolding(crate::specs::Permissions::may_make))]
pub fn has_call(calls: u32, number: u32) -> bool
    requires call { number < calls_end }
    ensures value { result ≡ may_make calls number }
{
    (calls >> number) & 1 == 1
}

// The bit of a call that is on no mailboxes, where these calls have it.
fn bit_without_mail(calls: u32, number: u32) -> u32
    requires call { number < calls_end }
    ensures value { result ≡ (if spec.is_call number && (may_make calls number && not (spec.is_mail number))
        then 2 ^ number else 0) }
{
    if is_call(number) && has_call(calls, number) && !is_mail(number) {
        1 << number
    } else {
        0
    }
}

/// Those of these calls, a bit each, that are on no mailboxes.
pub fn without_mail(calls: u32) -> u32
    ensures value { result ≡ spec.without_mail calls }
{
    let mut others = 0;
    for number in 0..CALLS_END {
        others += bit_without_mail(calls, number);
    }
    others
}

/// A kernel call.
#[derive(Clone, Copy, Debug, PartialEq, Eq)]
pub enum Call {
    Exit,
    Put,
    Alloc,
    Table,
    Map,
    Unmap,
    Copy,
    Delete,
    Revoke,
    Poll,
    Wait,
    Signal,
    Spawn,
    Yield,
    EndThread,
    /// Puts a word into a mailbox.
    Send = 19,
    /// Takes a word that came in a mailbox.
    Receive = 20,
}

impl Call {
    /// The call with a number; `None` where it is no call's.
    pub fn of(number: u32) -> Option<Call>
        ensures number { IfSome result (λ call. call_number call ≡ number) }
        ensures none { IfNone result (spec.is_call number ≡ false) }
    {
        Some(match number {
            0 => Call::Exit,
            1 => Call::Put,
            2 => Call::Alloc,
            3 => Call::Table,
            4 => Call::Map,
            5 => Call::Unmap,
            6 => Call::Copy,
            7 => Call::Delete,
            8 => Call::Revoke,
            9 => Call::Poll,
            10 => Call::Wait,
            11 => Call::Signal,
            12 => Call::Spawn,
            13 => Call::Yield,
            14 => Call::EndThread,
            19 => Call::Send,
            20 => Call::Receive,
            _ => return None,
        })
    }

    /// Its number, which is that of its operation.
    pub fn number(self) -> u8
        ensures value { result ≡ call_number self }
        ensures call { spec.is_call result ≡ true }
        ensures few { result < calls_end }
    {
        self as u8
    }

    /// Whether it is one of these calls, a bit each.
    pub fn is_in(self, calls: u32) -> bool
        ensures value { result ≡ may_make calls (call_number self) }
    {
        has_call(calls, u32::from(self.number()))
    }
}
