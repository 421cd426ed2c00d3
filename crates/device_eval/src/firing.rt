//! The evaluation of a copy.

ghost use Rattle.std.specs.Prelude.{◌≡◌, ◌≤◌, IfErr, IfOk, length};
ghost use Rattle.fc_values.specs.declared.limits.TheConstants.{MOST_LINKS};
ghost use Rattle.fc_nodes.specs.Program.{unfolding_of};
ghost use Rattle.alignment.specs.References.{flat_of};
ghost use Rattle.device_eval.specs.References.{snap_env};
ghost use Rattle.device_eval.specs.Firing.{IsFired};

use crate::drafts::Draft;
use crate::evaluation::{Context, eval};
use crate::scratch::Scratch;
use alignment::{Env, NearRef};
use fc_nodes::Unfolded;
use fc_values::{Export, Memory, inner};
use scope_columns::{Scope, Sight, own_row};
use smallvec::SmallVec;
use std::alloc::Global;
use std::marker::Model;
use std::sync::Arc;
use value_columns::value_at;
use value_trees::{Published, Snap};

/// A copy with its export.
#[derive(Drop)]
pub struct Fired {
    program: Arc<Unfolded>,
    snap: Snap,
    export: Published,
}

impl Model for Fired {
    ghost use Rattle.std.specs.Coded.{codes};
    ghost use Rattle.fc_values.specs.contracts.values.Local as local;
    ghost use Rattle.fc_values.specs.contracts.types.LocalTy as local_ty;
    ghost use Rattle.device_eval.specs.Firing.{FiredValue, IsFired};

    ghost Value = { FiredValue };

    ghost coded = { Prim.hlevel (codes, local.the_row.coded, local_ty.the_row.coded) };

    ghost view = { λ f. record { program = f.program.value; snap = f.snap; export = f.export } };

    ghost invariant = { λ f. IsFired (record { program = f.program.value; snap = f.snap; export = f.export }) };
}

impl Fired {
    ghost use Rattle.std.specs.Prelude.{◌≡◌};
    ghost use Rattle.device_eval.specs.Firing.{IsFired};

    /// The program.
    pub fn program(&self) -> &Unfolded
        ensures value { result.now ≡ self.now.program }
        ensures fired { IsFired self.now }
    {
        &self.program
    }

    /// The copy that was evaluated.
    pub fn snap(&self) -> &Snap
        ensures value { result.now ≡ self.now.snap }
        ensures fired { IsFired self.now }
    {
        &self.snap
    }

    /// Its export.
    pub fn export(&self) -> &Export
        ensures value { result.now ≡ self.now.export }
        ensures fired { IsFired self.now }
    {
        self.export.get()
    }

    /// The copy and the export.
    pub fn into_parts(self) -> (Snap, Published)
        ensures snap { result.0 ≡ self.snap }
        ensures export { result.1 ≡ self.export }
        ensures fired { IsFired self }
    {
        let Fired {
            program: _,
            snap,
            export,
        } = self;
        (snap, export)
    }
}

ghost use Rattle.value_trees.specs.Snaps.{IsSnap};

/// Evaluates a copy. Where memory runs out, the copy comes back.
pub fn fire(
    alloc: Global,
    scratch: &mut Scratch,
    program: &Arc<Unfolded>,
    snap: Snap,
) -> Result<Fired, (Snap, Memory)>
    requires { IsSnap (unfolding_of program.now.value) snap }
    ensures program { IfOk result (λ f. f.program ≡ program.now.value) }
    ensures snap { IfOk result (λ f. f.snap ≡ snap) }
    ensures back { IfErr result (λ e. e.0 ≡ snap) }
{
    let shared = match program.clone() {
        Ok(shared) => shared,
        Err(_) => return Err((snap, Memory)),
    };
    match publish(alloc, scratch, program, &snap) {
        Ok(export) => Ok(Fired {
            program: shared,
            snap,
            export,
        }),
        Err(memory) => Err((snap, memory)),
    }
}

/// The export of a copy, to be shared.
pub fn publish(
    alloc: Global,
    scratch: &mut Scratch,
    program: &Unfolded,
    snap: &Snap,
) -> Result<Published, Memory>
    requires { IsSnap (unfolding_of program.now) snap.now }
    ensures { IfOk result (λ e. IsFired (record { program = program.now; snap = snap.now; export = e })) }
{
    let export = evaluate(alloc, scratch, program, snap)?;
    Published::new(alloc, export)
}

/// The export of a copy, which is only borrowed.
pub fn evaluate(
    alloc: Global,
    scratch: &mut Scratch,
    program: &Unfolded,
    snap: &Snap,
) -> Result<Export, Memory>
    requires { IsSnap (unfolding_of program.now) snap.now }
    ensures { IfOk result (λ e. IsFired (record { program = program.now; snap = snap.now; export = e })) }
{
    let layout = program.layout();
    let mut draft = Draft::new(alloc, layout)?;
    let env = root_env(alloc, snap)?;
    let inputs = snap.inputs.as_slice();
    let context = Context {
        program,
        layout,
        device: snap.device,
        inputs,
    };
    let sight = Sight {
        env: &env,
        own: own_row(&env, snap.device),
        vars: &Scope::Empty,
    };
    let mut words = scratch.take(alloc);
    eval(alloc, &mut words, &context, 0, &sight, &mut draft)?;
    let value = value_at(alloc, &words, inner(&program.node(0).ty), 1, 0, 0)?;
    scratch.keep(words);
    Ok(draft.finish(value))
}

// What the root sees of a copy.
fn root_env<'a>(alloc: Global, snap: &'a Snap) -> Result<Env<'a>, Memory>
    requires { length snap.now.near.items ≤ MOST_LINKS }
    ensures { IfOk result (λ env. flat_of env ≡ snap_env snap.now) }
{
    let mut near = SmallVec::new(alloc);
    for n in &snap.near {
        near.push(NearRef {
            device: n.device,
            weight: n.weight,
            slots: &n.export.get().slots.list,
        })?;
    }
    let own = match &snap.own {
        Some(export) => Some(export.get().slots.list.as_slice()),
        None => None,
    };
    Ok(Env { own, near })
}
