//! The devices and pairs that lines bring beside those of the scene.

ghost use Rattle.std.specs.Prelude.{◌≡◌};
ghost use Rattle.topology.specs.Networks.{lives};

use crate::types::{Change, ChangeLine, MOST_PAIRS};
use fc_values::Memory;
use std::alloc::Global;
use std::collections::{HashMap, HashSet};
use topology::{MOST_DEVICES, Network};

/// The devices and pairs that some lines bring.
#[derive(Drop)]
pub(crate) struct Hand {
    // those that the scene doesn't have
    joined: HashSet<u32>,
    // those that the scene doesn't link, the lesser device first
    linked: HashSet<(u32, u32)>,
    // how many of these pairs each device is in
    partners: HashMap<u32, usize>,
}

/// Those of all lines, and of the lines before the one that is judged.
#[derive(Drop)]
pub(crate) struct Hands {
    pub(crate) all: Hand,
    pub(crate) before: Hand,
}

/// Whether a device is in the scene.
pub(crate) fn lives(network: &Network, device: u32) -> bool
    ensures { result ≡ lives network.now device }
{
    network.place(device).is_some()
}

impl Hand {
    ghost use Rattle.std.specs.Prelude.{◌<◌, ◌+◌, ◌^◌, ℕ, List, [], ◌∷◌, length, OnOk, nat_eq, nat_le};
    ghost use Rattle.std.specs.Prelude.{if◌then◌else◌};
    ghost use Rattle.topology.specs.Networks.{IsNetwork, Network as NetworkValue};
    ghost use Rattle.changes.specs.declared.types.Possible.{Possible};
    ghost use Rattle.changes.specs.declared.types.Weights.{Weights};
    ghost use Rattle.changes.specs.Changes.{ChangeValue, JoinChange, LinkChange};
    ghost use Rattle.changes.specs.Code.{change_in};
    ghost use Rattle.changes.specs.Hand.{at_hand, devices_at_hand, pair_at_hand, said_first};
    ghost use Rattle.changes.specs.Faults.{is_alone, is_crowded};
    ghost use Rattle.changes.specs.Kept.{IsHandOf, line_at, more_partners};

    /// What no lines bring: nothing.
    pub(crate) fn new(alloc: Global) -> Self
        ensures { (n : NetworkValue) → IsHandOf n [] result }
    {
        Hand {
            joined: HashSet::new(alloc),
            linked: HashSet::new(alloc),
            partners: HashMap::new(alloc),
        }
    }

    /// Whether a device is at hand.
    pub(crate) fn has(&self, network: &Network, device: u32) -> bool
        ghost lines: { List ChangeValue }
        requires { IsHandOf network.now lines self.now }
        ensures { result ≡ at_hand network.now lines device }
    {
        lives(network, device) || self.joined.contains(&device)
    }

    /// Whether a pair is at hand.
    pub(crate) fn are_partners(&self, network: &Network, a: u32, b: u32) -> bool
        ghost lines: { List ChangeValue }
        requires { IsHandOf network.now lines self.now }
        ensures at_hand { result ≡ pair_at_hand network.now lines a b }
        ensures network { IsNetwork network.now }
    {
        network.are_linked(a, b) || self.linked.contains(&(a.min(b), a.max(b)))
    }

    /// How many devices are at hand.
    fn count(&self, network: &Network) -> usize
        ghost lines: { List ChangeValue }
        requires { IsHandOf network.now lines self.now }
        ensures { result ≡ length (devices_at_hand network.now lines) }
    {
        network.devices().len() + self.joined.len()
    }

    /// Whether one more device would be too many.
    pub(crate) fn is_full(&self, network: &Network) -> bool
        ghost lines: { List ChangeValue }
        requires { IsHandOf network.now lines self.now }
        ensures { result ≡ nat_le MOST_DEVICES (length (devices_at_hand network.now lines)) }
    {
        self.count(network) >= MOST_DEVICES
    }

    /// Whether a device is the only one at hand.
    pub(crate) fn is_alone(&self, network: &Network) -> bool
        ghost lines: { List ChangeValue }
        requires { IsHandOf network.now lines self.now }
        ensures { result ≡ is_alone network.now lines }
    {
        self.count(network) <= 1
    }

    /// Whether a new pair of a device would be one too many.
    pub(crate) fn is_crowded(&self, network: &Network, device: u32) -> bool
        ghost lines: { List ChangeValue }
        requires { IsHandOf network.now lines self.now }
        ensures { result ≡ is_crowded network.now lines device }
    {
        let more = self.partners.get(&device).copied().unwrap_or(0);
        more.saturating_add(network.neighbours(device).len()) >= MOST_PAIRS
    }

    /// Adds what the line at a place brings.
    pub(crate) fn add_line(
        &mut self,
        network: &Network,
        lines: &[ChangeLine],
        at: usize,
    ) -> Result<(), Memory>
        ghost told: { List ChangeValue }
        requires within { at < length lines.now }
        requires few { length told + 1 < 2 ^ 64 }
        requires hand { IsHandOf network.now told self.old }
        ensures { OnOk result (IsHandOf network.now (said_first (line_at at lines.now).1 told) self.new) }
    {
        match &lines[at].change {
            Some(change) => self.add(network, change),
            None => Ok(()),
        }
    }

    // Adds what a line brings.
    fn add(&mut self, network: &Network, change: &Change) -> Result<(), Memory>
        ghost told: { List ChangeValue }
        requires few { length told + 1 < 2 ^ 64 }
        requires hand { IsHandOf network.now told self.old }
        ensures { OnOk result (IsHandOf network.now (change_in change.now ∷ told) self.new) }
    {
        match change {
            Change::Link(a, b, _) => self.add_pair(network, *a, *b),
            Change::Join(device, _) => self.add_device(network, *device),
            Change::Set(_, _, _) | Change::Unlink(_, _) | Change::Leave(_) => Ok(()),
        }
    }

    // Adds a device that a line brings.
    fn add_device(&mut self, network: &Network, device: u32) -> Result<(), Memory>
        ghost told: { List ChangeValue }
        requires { IsHandOf network.now told self.old }
        ensures { OnOk result ((ps : List Possible) → IsHandOf network.now (JoinChange device ps ∷ told) self.new) }
    {
        if self.has(network, device) {
            return Ok(());
        }
        self.joined.insert(device)?;
        Ok(())
    }

    // Adds a pair that a line brings.
    fn add_pair(&mut self, network: &Network, a: u32, b: u32) -> Result<(), Memory>
        ghost told: { List ChangeValue }
        requires few { length told + 1 < 2 ^ 64 }
        requires hand { IsHandOf network.now told self.old }
        ensures { OnOk result ((w : Weights) → IsHandOf network.now (LinkChange a b w ∷ told) self.new) }
    {
        if self.are_partners(network, a, b) {
            return Ok(());
        }
        self.linked.insert((a.min(b), a.max(b)))?;
        self.add_partner(a)?;
        if a != b {
            self.add_partner(b)?;
        }
        Ok(())
    }

    // Counts one more partner of a device.
    fn add_partner(&mut self, device: u32) -> Result<(), Memory>
        requires { more_partners self.old device + 1 < 2 ^ 64 }
        ensures joined { self.new.joined ≡ self.old.joined }
        ensures linked { self.new.linked ≡ self.old.linked }
        ensures partners { OnOk result ((d : ℕ) → more_partners self.new d
            ≡ (if nat_eq device d then more_partners self.old d + 1 else more_partners self.old d)) }
    {
        *self.partners.entry(device)?.or_insert(0) += 1;
        Ok(())
    }
}

impl Hands {
    ghost use Rattle.std.specs.Prelude.{[], map, IfOk};
    ghost use Rattle.changes.specs.Code.{line_in};
    ghost use Rattle.changes.specs.Hand.{said};
    ghost use Rattle.changes.specs.Kept.{AreHandsOf, told_of};

    /// Those of all lines, and of none before.
    pub(crate) fn new(
        alloc: Global,
        network: &Network,
        lines: &[ChangeLine],
    ) -> Result<Self, Memory>
        ensures { IfOk result (AreHandsOf network.now (told_of (said (map line_in lines.now)) [])) }
    {
        let mut all = Hand::new(alloc);
        let mut at = lines.len();
        while at > 0 {
            at -= 1;
            all.add_line(network, lines, at)?;
        }
        Ok(Hands {
            all,
            before: Hand::new(alloc),
        })
    }
}
