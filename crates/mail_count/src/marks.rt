//! What was seen of a round so far, in marks.

ghost use Rattle.std.specs.Prelude.{◌≡◌, ◌<◌, IfOk, OnOk, true, slice_index, length};
ghost use Rattle.topology.specs.Networks.{IsNetwork, Network as NetworkValue, numbers};
ghost use Rattle.message_links.specs.MailCores.{MailBegin, MailEnd, MailAgain, MailLose};
ghost use Rattle.message_links.specs.MailEntries.{mail_entry};
ghost use Rattle.message_links.specs.MailRounds.{posts_of};
ghost use Rattle.mail_book.specs.MailViews.{mail_of};
ghost use Rattle.mail_count.specs.Seen.{Seen, IsWhole, cleared, fresh, noted};
ghost use Rattle.mail_count.specs.Marks.{Tells, Told};

use crate::pairs::{Bringing, clear_rows, hear, lose, quiet_row, send_row};
use fc_values::Memory;
use mail_book::{Mail, pair_place};
use message_links::MailEntry;
use std::alloc::Global;
use topology::Network;

/// Which devices fly with a copy taken in the round, which fired in it, and what was seen of the ordered pairs: a row
/// for each device, with its neighbours as receivers. How many ordered pairs there are, and how many devices and pairs
/// are still missing.
#[derive(Drop)]
pub(crate) struct Marks {
    pub(crate) flies: Vec<bool>,
    pub(crate) fired: Vec<bool>,
    pub(crate) rows: Vec<Vec<Bringing>>,
    pub(crate) pairs: usize,
    pub(crate) devices_left: usize,
    pub(crate) pairs_left: usize,
}

impl Marks {
    /// Those of a round that begins at a mail core.
    pub(crate) fn new(alloc: Global, mail: &Mail) -> Result<Self, Memory>
        ensures { IfOk result (λ m. Tells mail.now.core.net m (fresh (posts_of (mail_of mail.now)))) }
    {
        let devices = mail.core().net().devices();
        let flies = vec![in alloc; false; devices.len()]?;
        let fired = vec![in alloc; false; devices.len()]?;
        let mut rows = Vec::new(alloc);
        let mut pairs = 0;
        for device in devices {
            let row = quiet_row(alloc, mail, device.id)?;
            pairs += row.len();
            rows.push(row)?;
        }
        Ok(Marks {
            flies,
            fired,
            rows,
            pairs,
            devices_left: devices.len(),
            pairs_left: pairs,
        })
    }

    /// Whether each device fired, and then each ordered pair brought a message.
    pub(crate) fn is_done(&self) -> bool
        ensures whole { (N : NetworkValue) (s : Seen) → IsNetwork N → Tells N self.now s
            → result ≡ true → IsWhole N s }
        ensures done { (N : NetworkValue) (s : Seen) → IsNetwork N → Tells N self.now s
            → IsWhole N s → result ≡ true }
    {
        self.devices_left == 0 && self.pairs_left == 0
    }

    /// Begins another round.
    pub(crate) fn begin_round(&mut self)
        ensures { (N : NetworkValue) (s : Seen) → Tells N self.old s → Tells N self.new (cleared s) }
    {
        self.flies.fill(false);
        self.fired.fill(false);
        clear_rows(&mut self.rows);
        self.devices_left = self.fired.len();
        self.pairs_left = self.pairs;
    }

    /// Notes an entry.
    pub(crate) fn note(&mut self, net: &Network, entry: MailEntry) -> Result<(), Memory>
        requires { Told net.now self.old }
        ensures { (s : Seen) → Tells net.now self.old s
            → OnOk result (Tells net.now self.new (noted net.now s (mail_entry entry))) }
    {
        match entry {
            MailEntry::Begin(device) => self.begin(net, device),
            MailEntry::End(device) => self.end(net, device)?,
            MailEntry::Idle => {}
            MailEntry::Deliver(from, to) => {
                self.bring(net, from, to);
                self.lose(net, from, to, 0);
            }
            MailEntry::Again(from, to) => self.bring(net, from, to),
            MailEntry::Lose(from, to, place) => self.lose(net, from, to, place),
        }
        Ok(())
    }

    fn begin(&mut self, net: &Network, device: u32)
        requires { Told net.now self.old }
        ensures { (s : Seen) → Tells net.now self.old s
            → Tells net.now self.new (noted net.now s (MailBegin device)) }
    {
        if let Some(place) = net.place(device) {
            self.flies[place] = true;
        }
    }

    fn end(&mut self, net: &Network, device: u32) -> Result<(), Memory>
        requires { Told net.now self.old }
        ensures { (s : Seen) → Tells net.now self.old s
            → OnOk result (Tells net.now self.new (noted net.now s (MailEnd device))) }
    {
        let Some(place) = net.place(device) else {
            return Ok(());
        };
        let own = self.flies[place];
        self.flies[place] = false;
        self.devices_left -= land(&mut self.fired, place, own);
        send_row(&mut self.rows[place], own)
    }

    // The oldest message of an ordered pair is heard.
    fn bring(&mut self, net: &Network, from: u32, to: u32)
        requires { Told net.now self.old }
        ensures { (s : Seen) → Tells net.now self.old s
            → Tells net.now self.new (noted net.now s (MailAgain from to)) }
    {
        let Some((row, at)) = pair_place(net, to, from) else {
            return;
        };
        self.pairs_left -= hear(&mut self.rows[row][at], self.devices_left == 0);
    }

    // A message of an ordered pair is lost, if it is there.
    fn lose(&mut self, net: &Network, from: u32, to: u32, place: u32)
        requires { Told net.now self.old }
        ensures { (s : Seen) → Tells net.now self.old s
            → Tells net.now self.new (noted net.now s (MailLose from to place)) }
    {
        if let Some((row, at)) = pair_place(net, to, from) {
            lose(&mut self.rows[row][at], place as usize);
        }
    }
}

ghost use Rattle.std.specs.Prelude.{◌+◌, ◌||◌, slice_index_or, slice_set, false};
ghost use Rattle.mail_count.specs.Seen.{missing};

// A firing ends, which was begun in the round or not. Answers how many more devices have fired.
fn land(fired: &mut [bool], place: usize, own: bool) -> usize
    requires { place < length fired.old }
    ensures fired { fired.new ≡ slice_set fired.old place (own || slice_index_or fired.old place false) }
    ensures missing { missing fired.new + result ≡ missing fired.old }
{
    if !own || fired[place] {
        return 0;
    }
    fired[place] = true;
    1
}
