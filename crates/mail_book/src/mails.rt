//! Mail cores: a core, and for each ordered pair of neighbours what was heard and what is in transit.

use crate::letters::{Letters, deliver, lose, repeat};
use crate::pairs::pair_place;
use crate::rows::{Sending, copy_rows, heard_in, no_rows, post_all};
use crate::starts::{Post, hear_all, send_all};
use fc_values::{Memory, copy_locals};
use firing_core::{Core, StepFault, faultless_steps};
use message_links::{MailEntry, MailFault, MailReplay};
use std::alloc::Global;
use std::marker::Model;
use value_trees::Snap;

/// A core whose devices know of each other what messages brought.
#[derive(Drop)]
pub struct Mail {
    core: Core,
    // a row for each device, in the order of the network, with a place for each of its neighbours
    rows: Vec<Vec<Letters>>,
}

impl Model for Mail {
    ghost use Rattle.std.specs.Coded.{codes};
    ghost use Rattle.fc_values.specs.Codes.{local_value_code};
    ghost use Rattle.fc_values.specs.contracts.values.Local as local;
    ghost use Rattle.fc_values.specs.contracts.types.LocalTy as local_ty;
    ghost use Rattle.mail_book.specs.Rows.{lists_of};
    ghost use Rattle.mail_book.specs.MailViews.{MailValue, IsMail, mail_with};

    ghost Value = { MailValue };

    ghost coded = { Prim.hlevel (codes, local_value_code, local.the_row.coded, local_ty.the_row.coded) };

    ghost view = { λ m. mail_with m.core (lists_of m.rows.items) };

    ghost invariant = { λ m. IsMail (mail_with m.core (lists_of m.rows.items)) };
}

impl Mail {
    ghost use Rattle.std.specs.Prelude.{◌≡◌, ◌<◌, IfOk, OnOk, IfErr, length, slice_index};
    ghost use Rattle.value_trees.specs.Snaps.{snap_copy, IsSnap};
    ghost use Rattle.topology.specs.Networks.{numbers};
    ghost use Rattle.firing_core.specs.Cores.{copy_of};
    ghost use Rattle.firing_core.specs.CoreViews.{core_of, program_of, IsSameCore};
    ghost use Rattle.message_links.specs.MailCores.{MailStep, MailBegin, MailEnd, MailDeliver, MailAgain, MailLose};
    ghost use Rattle.message_links.specs.MailCores.{sees, IsMailStart};
    ghost use Rattle.message_links.specs.MailEntries.{mail_entry};
    ghost use Rattle.mail_book.specs.MailViews.{mail_of, unfolded_of, quiet, IsMail};
    ghost use Rattle.mail_book.specs.Starts.{AreHeld, holding, post_values};
    ghost use Rattle.mail_book.specs.MailReplays.{HasStepFault, HasMailFault, RefusesMail};

    /// The mail core of a core in which these exports were heard and these messages are in transit, the first given of
    /// a pair as its oldest. No end of a log sent them. Of several heard on a pair the last counts, and of more than
    /// four in transit the last four.
    pub fn new(
        alloc: Global,
        core: Core,
        heard: Vec<Post>,
        transit: Vec<Post>,
    ) -> Result<Self, Memory>
        requires heard { AreHeld (program_of core) core.net heard.items }
        requires transit { AreHeld (program_of core) core.net transit.items }
        ensures core { IfOk result (λ m. m.core ≡ core) }
        ensures mail { IfOk result (λ m. mail_of m ≡ holding (core_of core)
            (post_values (program_of core) heard.items) (post_values (program_of core) transit.items)) }
        ensures start { IfOk result (λ m. IsMailStart (program_of core) (mail_of m)) }
    {
        let net = core.net();
        let mut rows = no_rows(alloc, net)?;
        hear_all(alloc, net, &mut rows, &heard)?;
        send_all(alloc, net, &mut rows, &transit)?;
        Ok(Mail { core, rows })
    }

    /// The mail core of a core, in which nothing was heard and nothing is in transit.
    pub fn quiet(alloc: Global, core: Core) -> Result<Self, Memory>
        ensures core { IfOk result (λ m. m.core ≡ core) }
        ensures mail { IfOk result (λ m. mail_of m ≡ quiet (core_of core)) }
        ensures start { IfOk result (λ m. IsMailStart (program_of core) (mail_of m)) }
    {
        let heard = Vec::new(alloc);
        let transit = Vec::new(alloc);
        Mail::new(alloc, core, heard, transit)
    }

    /// The core.
    pub fn core(&self) -> &Core
        ensures value { result.now ≡ self.now.core }
        ensures mail { IsMail self.now }
    {
        &self.core
    }

    /// How many messages are in transit from a device to another.
    pub fn in_transit(&self, from: u32, to: u32) -> usize
        ensures { result ≡ length ((mail_of self.now).transit from to) }
    {
        let Some((row, at)) = pair_place(self.core.net(), from, to) else {
            return 0;
        };
        self.rows[row][at].transit.len()
    }

    /// A copy of the mail core.
    pub fn copy(&self, alloc: Global) -> Result<Self, Memory>
        ensures program { IfOk result (λ m. m.core.program ≡ self.now.core.program) }
        ensures mail { IfOk result (λ m. mail_of m ≡ mail_of self.now) }
    {
        let core = self.core.copy(alloc)?;
        let rows = copy_rows(alloc, &self.rows)?;
        Ok(Mail { core, rows })
    }

    /// Applies the entry at an index of a log, an end by evaluating the copy in flight.
    pub(crate) fn apply(
        &mut self,
        alloc: Global,
        index: usize,
        entry: MailEntry,
    ) -> Result<(), MailReplay>
        ensures ok { OnOk result
            (MailStep (unfolded_of self.old) index (mail_of self.old) (mail_entry entry) (mail_of self.new)) }
        ensures refused { IfErr result (RefusesMail index (mail_of self.old) (mail_entry entry)) }
        ensures program { OnOk result (self.new.core.program ≡ self.old.core.program) }
    {
        match entry {
            MailEntry::Begin(device) => at_step(index, self.begin(alloc, device)),
            MailEntry::End(device) => at_step(index, self.end(alloc, index, device)),
            MailEntry::Idle => Ok(()),
            MailEntry::Deliver(from, to) => at_link(index, self.deliver(from, to)),
            MailEntry::Again(from, to) => self.again(index, from, to),
            MailEntry::Lose(from, to, at) => at_link(index, self.lose(from, to, at)),
        }
    }

    // Puts the copy of what a device sees in flight.
    fn begin(&mut self, alloc: Global, device: u32) -> Result<(), StepFault>
        ensures ok { OnOk result
            (MailStep (unfolded_of self.old) 0 (mail_of self.old) (MailBegin device) (mail_of self.new)) }
        ensures refused { IfErr result (HasStepFault (mail_of self.old) (MailBegin device)) }
        ensures same { OnOk result (IsSameCore self.old.core self.new.core) }
    {
        let Some(place) = self.core.net().place(device) else {
            return Err(StepFault::NoDevice);
        };
        let Ok(snap) = self.neighbourhood(alloc, device, place) else {
            return Err(StepFault::Memory);
        };
        self.core.fly(snap)
    }

    // The copy of what a device sees of itself and of its neighbours.
    fn neighbourhood(&self, alloc: Global, device: u32, place: usize) -> Result<Snap, Memory>
        requires within { place < length self.now.core.net.devices }
        requires device { slice_index (numbers self.now.core.net.devices) place ≡ device }
        ensures copy { IfOk result (λ s. snap_copy (unfolded_of self.now) s
            ≡ copy_of self.now.core.net (sees (mail_of self.now) device) device) }
        ensures snap { IfOk result (λ s. IsSnap (unfolded_of self.now) s) }
    {
        faultless_steps();
        let inputs = copy_locals(alloc, &self.core.net().devices()[place].inputs)?;
        let own = match self.core.published(device) {
            Some(export) => Some(export.share()?),
            None => None,
        };
        let neighbours = self.core.net().neighbours(device);
        let near = heard_in(alloc, neighbours, &self.rows[place])?;
        Ok(Snap {
            device,
            inputs,
            own,
            near,
        })
    }

    // Evaluates a device's copy in flight, publishes its export, and sends it to each neighbour.
    fn end(&mut self, alloc: Global, index: usize, device: u32) -> Result<(), StepFault>
        ensures ok { OnOk result
            (MailStep (unfolded_of self.old) index (mail_of self.old) (MailEnd device) (mail_of self.new)) }
        ensures refused { IfErr result (HasStepFault (mail_of self.old) (MailEnd device)) }
        ensures same { OnOk result (IsSameCore self.old.core self.new.core) }
    {
        self.core.finish(alloc, device)?;
        let Some(export) = self.core.published(device) else {
            unreachable!();
        };
        let sending = Sending {
            device,
            export,
            sent: Some(index),
        };
        if post_all(self.core.net(), &mut self.rows, &sending).is_err() {
            return Err(StepFault::Memory);
        }
        Ok(())
    }

    fn deliver(&mut self, from: u32, to: u32) -> Result<(), MailFault>
        ensures ok { OnOk result
            (MailStep (unfolded_of self.old) 0 (mail_of self.old) (MailDeliver from to) (mail_of self.new)) }
        ensures refused { IfErr result (HasMailFault (mail_of self.old) (MailDeliver from to)) }
        ensures same { OnOk result (IsSameCore self.old.core self.new.core) }
    {
        let Some((row, at)) = pair_place(self.core.net(), from, to) else {
            return Err(MailFault::NoLink);
        };
        deliver(&mut self.rows[row][at])
    }

    fn again(&mut self, index: usize, from: u32, to: u32) -> Result<(), MailReplay>
        ensures ok { OnOk result
            (MailStep (unfolded_of self.old) 0 (mail_of self.old) (MailAgain from to) (mail_of self.new)) }
        ensures refused { IfErr result (RefusesMail index (mail_of self.old) (MailAgain from to)) }
        ensures same { OnOk result (IsSameCore self.old.core self.new.core) }
    {
        let Some((row, at)) = pair_place(self.core.net(), from, to) else {
            return Err(MailReplay::At {
                index,
                fault: MailFault::NoLink,
            });
        };
        match repeat(&mut self.rows[row][at]) {
            Ok(true) => Ok(()),
            Ok(false) => Err(MailReplay::At {
                index,
                fault: MailFault::Empty,
            }),
            Err(_) => Err(MailReplay::Memory),
        }
    }

    fn lose(&mut self, from: u32, to: u32, place: u32) -> Result<(), MailFault>
        ensures ok { OnOk result
            (MailStep (unfolded_of self.old) 0 (mail_of self.old) (MailLose from to place) (mail_of self.new)) }
        ensures refused { IfErr result (HasMailFault (mail_of self.old) (MailLose from to place)) }
        ensures same { OnOk result (IsSameCore self.old.core self.new.core) }
    {
        let Some((row, at)) = pair_place(self.core.net(), from, to) else {
            return Err(MailFault::NoLink);
        };
        lose(&mut self.rows[row][at], place as usize)
    }
}

ghost use Rattle.std.specs.Prelude.{◌↔◌, IfErr, IsOk};
ghost use Rattle.mail_book.specs.MailReplays.{AtStep, AtLink};

// The answer to a begin or an end that is the entry at an index.
fn at_step(index: usize, answer: Result<(), StepFault>) -> Result<(), MailReplay>
    ensures ok { IsOk result ↔ IsOk answer }
    ensures refused { IfErr result (AtStep index answer) }
{
    match answer {
        Ok(()) => Ok(()),
        Err(StepFault::Memory) => Err(MailReplay::Memory),
        Err(fault) => Err(MailReplay::At {
            index,
            fault: MailFault::Step(fault),
        }),
    }
}

// The answer to the entry of a message at an index.
fn at_link(index: usize, answer: Result<(), MailFault>) -> Result<(), MailReplay>
    ensures ok { IsOk result ↔ IsOk answer }
    ensures refused { IfErr result (AtLink index answer) }
{
    match answer {
        Ok(()) => Ok(()),
        Err(fault) => Err(MailReplay::At { index, fault }),
    }
}
