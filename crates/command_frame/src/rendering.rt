//! The answers to what is refused: a status and a line.
ghost use Rattle.std.specs.Prelude.{◌≡◌, ◌++◌, IfOk, codes};
ghost use Rattle.net_json.specs.Judging.{Misshaped, BadNetwork, BadKept};
ghost use Rattle.command_frame.specs.Causes.{path_text, scene_answer, scene_refused};
ghost use Rattle.command_frame.specs.Code.{value_of};
ghost use Rattle.command_frame.specs.Refusals.{refused};
ghost use Rattle.command_frame.specs.Stops.{IsAnswerTo, cause_of, scene_cause};

use crate::answers::Answer;
use crate::fault_words::net_word;
use crate::refusal::{Refusal, limit};
use crate::stop::Stop;
use fc_values::Memory;
use net_json::{JsonFault, Path};
use std::alloc::Global;
use topology::NetFault;

// A word, and a path behind it.
fn at_path(alloc: Global, word: &str, path: &Path) -> Result<Vec<u8>, Memory>
    ensures { IfOk result (λ v. v.items ≡ word.now ++ codes " " ++ path_text path.now.text.items) }
{
    let mut text = word.as_bytes().to_vec(alloc)?;
    text.push(b' ')?;
    if path.text.is_empty() {
        text.push(b'/')?;
    } else {
        text.extend_from_slice(&path.text)?;
    }
    Ok(text)
}

// The answer of status 3 with this line.
fn line(alloc: Global, mut text: Vec<u8>) -> Result<Answer, Memory>
    ensures { IfOk result (λ a. value_of a ≡ scene_answer text.items) }
{
    text.push(b'\n')?;
    Ok(Answer::plain(alloc, 3, text))
}

/// The answer of a refusal.
pub fn refuse(alloc: Global, refusal: Refusal) -> Result<Answer, Memory>
    ensures { IfOk result (λ a. value_of a ≡ refused refusal) }
{
    Ok(Answer::plain(alloc, refusal.status(), refusal.line(alloc)?))
}

// Something of another shape.
fn misshaped(alloc: Global, path: &Path) -> Result<Answer, Memory>
    ensures { IfOk result (λ a. value_of a ≡ scene_refused (Misshaped path.now.text.items)) }
{
    Ok(line(alloc, at_path(alloc, "shape", path)?)?)
}

// A network's refusal at a path.
fn network(alloc: Global, path: &Path, fault: NetFault) -> Result<Answer, Memory>
    ensures { IfOk result (λ a. value_of a ≡ scene_refused (BadNetwork path.now.text.items fault)) }
{
    if let Some(limit) = limit(fault) {
        return Ok(refuse(alloc, limit)?);
    }
    let mut text = at_path(alloc, "network", path)?;
    text.push(b' ')?;
    text.extend_from_slice(net_word(fault).as_bytes())?;
    Ok(line(alloc, text)?)
}

// A kept list that no export has.
fn kept(alloc: Global, path: &Path, place: u32) -> Result<Answer, Memory>
    ensures { IfOk result (λ a. value_of a ≡ scene_refused (BadKept path.now.text.items place)) }
{
    let mut text = at_path(alloc, "kept", path)?;
    text.push(b' ')?;
    text.extend_from_slice(place.to_string(alloc)?.as_bytes())?;
    Ok(line(alloc, text)?)
}

// The answer to the first fault of a scene.
fn scene(alloc: Global, fault: &JsonFault) -> Result<Answer, Memory>
    ensures { IfOk result (λ a. IsAnswerTo (scene_cause fault.now) (value_of a)) }
{
    match fault {
        JsonFault::Json => Ok(line(alloc, b"json".to_vec(alloc)?)?),
        JsonFault::Shape(path) => Ok(misshaped(alloc, path)?),
        JsonFault::Net(path, fault) => Ok(network(alloc, path, *fault)?),
        JsonFault::Kept(path, place) => Ok(kept(alloc, path, *place)?),
        JsonFault::Devices(count) => Ok(refuse(alloc, Refusal::Devices(*count))?),
        JsonFault::Memory => Err(Memory),
    }
}

/// The answer to a stop, where it has a cause.
pub fn stopped(alloc: Global, stop: &Stop) -> Result<Answer, Memory>
    ensures { IfOk result (λ a. IsAnswerTo (cause_of stop.now) (value_of a)) }
{
    match stop {
        Stop::Memory => Err(Memory),
        Stop::Refused(refusal) => Ok(refuse(alloc, *refusal)?),
        Stop::Scene(fault) => Ok(scene(alloc, fault)?),
    }
}
