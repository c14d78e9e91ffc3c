//! A scene over the text of a script.

ghost use Rattle.std.specs.Prelude.{◌≡◌, ◌<◌, ◌^◌, true, Ok, length, IfOk, IfErr};
ghost use Rattle.std.specs.List.{list_all};
ghost use Rattle.bus_script.specs.Script.{Script, script};
ghost use Rattle.bus_script.specs.Reading.{FailsAt};
ghost use Rattle.bus_scene.specs.Queues.{queues};
ghost use Rattle.bus_scene.specs.Reading.{IsOf};

use crate::queues::QueuedAnswers;
use crate::scene::Scene;
use bus_script::{Answer, ScriptError, ScriptForm, read};
use bus_session::Session;
use react_core::outside::OutOfMemory;
use std::alloc::Global;

/// What a script says: the outside that answers from it, the sessions, how many rounds are run at most, and where the
/// reactor's ticks and the numbers of its timers begin.
#[derive(Debug, Drop)]
pub struct Played {
    pub scene: Scene,
    pub sessions: Vec<Session>,
    pub rounds: u64,
    pub tick: u64,
    pub timer: u64,
}

/// Puts each answer at the end of its queue.
fn queued(
    alloc: Global,
    sessions: usize,
    answers: Vec<Answer>,
) -> Result<QueuedAnswers, OutOfMemory>
    ensures { IfOk result (λ queued. queued ≡ queues sessions answers.items) }
{
    let mut queued = QueuedAnswers::new(alloc, sessions)?;
    for answer in answers {
        queued.push(answer)?;
    }
    Ok(queued)
}

impl Scene {
    /// Reads a script for a command: the scene over its answers, its sessions, and its numbers.
    ///
    /// A text that is no script is refused with its first bad line and the reason.
    pub fn from_script(alloc: Global, text: &[u8], form: ScriptForm) -> Result<Played, ScriptError>
        ensures script { IfOk result (λ played. (s : Script) × (script form text.now ≡ Ok s) × IsOf s played) }
        ensures refused { IfErr result (λ e. FailsAt e (script form text.now)) }
        ensures few { IfOk result (λ played. length played.sessions.items < 2 ^ 32) }
    {
        let parts = read(alloc, text, form)?.into_parts();
        let Ok(script) = queued(alloc, parts.sessions.len(), parts.answers) else {
            return Err(ScriptError::OutOfMemory);
        };
        let Ok(scene) = Scene::new(alloc, script) else {
            return Err(ScriptError::OutOfMemory);
        };
        Ok(Played {
            scene,
            sessions: parts.sessions,
            rounds: parts.rounds,
            tick: parts.tick,
            timer: parts.timer,
        })
    }
}
