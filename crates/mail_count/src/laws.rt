//! Laws of rounds over message links.

ghost use Rattle.mail_count.specs.Laws.{SomeGreatestMail};

/// Each mail log has a greatest number of rounds.
pub fn some_greatest_mail()
    ensures { SomeGreatestMail }
{}
