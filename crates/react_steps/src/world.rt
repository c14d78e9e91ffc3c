//! The world of all parties, and lists of steps from the idle world.
ghost use Rattle.std.specs.Prelude.{◌≡◌, [], ◌∷◌, ◌++◌, reverse, IfOk, OnOk, IfErr};
ghost use Rattle.react_steps.specs.Accounts.{Accounted};
ghost use Rattle.react_steps.specs.History.{Run, kinds_of, IsRefused, IsRefusedNext};
ghost use Rattle.react_steps.specs.Interests.{ReadyExactly};
ghost use Rattle.react_steps.specs.World.{idle};

use crate::kind::{Kind, StepError, Taken};
use crate::machine::Machine;
use react_core::outside::OutOfMemory;
use std::alloc::Global;
use std::marker::Model;

/// A world, with the steps that led to it from the idle one.
#[derive(Drop)]
pub struct World {
    machine: Machine,
    history: Vec<Taken>,
}

impl Model for World {
    ghost use Rattle.std.specs.Prelude.{◌≤◌, length, reverse};
    ghost use Rattle.react_steps.specs.History.{Past, Run};
    ghost use Rattle.react_steps.specs.Machine.{world_of, Sound};

    ghost Value = { Past };

    ghost view = { λ w. record { world = world_of w.machine; history = w.history.items } };

    ghost invariant = { λ w. record {
      sound : Sound w.machine;
      ticker : w.machine.ticker ≤ length w.history.items;
      run : Run (reverse w.history.items) (world_of w.machine);
    } };
}

impl World {
    ghost use Rattle.react_steps.specs.Machine.{world_of, Sound};

    /// The world with nothing in it.
    pub fn idle(alloc: Global) -> World
        ensures world { result.world ≡ idle }
        ensures history { result.history ≡ [] }
    {
        World {
            machine: Machine::idle(alloc),
            history: Vec::new(alloc),
        }
    }

    /// Lends the steps that were taken, the first first.
    pub fn history(&self) -> &[Taken]
        ensures { result.now ≡ self.now.history }
    {
        self.history.as_slice()
    }

    /// Takes a step of this kind, where there is one.
    fn take(self, alloc: Global, kind: Kind) -> Result<World, StepError>
        ensures kind { IfOk result (λ w. kinds_of w.history ≡ kinds_of self.history ++ kind ∷ []) }
        ensures run { IfOk result (λ w. Run (reverse w.history) w.world) }
        ensures disabled { IfErr result (IsRefusedNext self kind) }
    {
        let World {
            mut machine,
            mut history,
        } = self;
        // The room comes first, so that a step that is made is told.
        if history.reserve(1).is_err() {
            return Err(StepError::OutOfMemory);
        }
        let Ok(made) = machine.make(alloc, &kind) else {
            return Err(StepError::OutOfMemory);
        };
        let Some(made) = made else {
            return Err(StepError::Disabled {
                index: history.len(),
            });
        };
        history.push_reserved(Taken {
            kind,
            answer: made.answer,
            woken: made.woken,
        });
        Ok(World { machine, history })
    }
}

/// Takes steps of these kinds, in order, from the idle world.
///
/// Disabled: no step of the kind at this index may be taken after those before it.
pub fn run_steps(alloc: Global, kinds: Vec<Kind>) -> Result<World, StepError>
    ensures kinds { IfOk result (λ w. kinds_of w.history ≡ kinds.items) }
    ensures run { IfOk result (λ w. Run (reverse w.history) w.world) }
    ensures ready { IfOk result (λ w. ReadyExactly (reverse w.history)) }
    ensures accounted { IfOk result (λ w. Accounted (reverse w.history) w.world) }
    ensures disabled { IfErr result (IsRefused kinds.items) }
{
    let mut world = World::idle(alloc);
    for kind in kinds {
        world = world.take(alloc, kind)?;
    }
    Ok(world)
}
