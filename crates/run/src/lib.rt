// An engine that is formatted and performs a list of calls: the call that bears the promise.
#![tactic(auto)]

ghost use Rattle.std.specs.Prelude.{◌≡◌, min, length, take, drop};
ghost use Rattle.engine.specs.Seen.{schema_of, validator_of};
ghost use Rattle.run.specs.Ran.{ChainOn, RunOn};

use calls::{Answer, Call, EngineFault};
use device::Device;
use engine::Engine;
use validate::Validator;

// Performs the calls in order, as many as there are slots for their answers, and says how many.
fn perform_all<D: Device, V: Validator>(
    engine: &mut Engine<D, V>,
    calls: &[Call<'_>],
    answers: &mut [Answer],
) -> usize
    ensures count { result ≡ min (length calls.now) (length answers.old) }
    ensures rest { drop result answers.new ≡ drop result answers.old }
    ensures validator { validator_of engine.new ≡ validator_of engine.old }
    ensures schema { schema_of engine.new ≡ schema_of engine.old }
    ensures chain { ChainOn D.Device V.Validator engine.old (take result calls.now) (take result answers.new) engine.new }
{
    let n = calls.len().min(answers.len());
    // By index: after a zip with `iter_mut` nothing is known of the slots, and `rest` and `chain` stay open.
    for i in 0..n {
        answers[i] = engine.perform(calls[i]);
    }
    n
}

// Formats an engine in any state with an image, and performs the calls in order, as many as there are slots for their answers: the
// answer is how many. Further slots stay as they were. Where the format is refused, no call is made.
pub fn run<D: Device, V: Validator>(
    engine: &mut Engine<D, V>,
    image: &[u8],
    calls: &[Call<'_>],
    answers: &mut [Answer],
) -> Result<usize, EngineFault>
    ensures { RunOn D.Device V.Validator engine.old image.now calls.now answers.old result answers.new engine.new }
{
    engine.format(image)?;
    Ok(perform_all(engine, calls, answers))
}
