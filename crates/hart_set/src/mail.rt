// What a switch does to the boxes.
ghost use Rattle.std.specs.Prelude.{◌≡◌, ◌<◌, IfSome};
ghost use Rattle.world_view.specs.Mail.{switched_boxes};

use mail_slots::Mail;
use tp_base::DomainNo;

/// What was put in by who leaves goes off, and then what waits for who enters comes in.
pub(crate) fn switch_boxes(mail: &mut Mail, out: Option<u8>, into: u8)
    requires leaves { IfSome out (λ d. d < 32) }
    requires enters { into < 32 }
    ensures switched { mail.new ≡ switched_boxes out into mail.old }
{
    if let Some(d) = out {
        mail.ends(DomainNo::new(d));
    }
    mail.begins(DomainNo::new(into));
}
