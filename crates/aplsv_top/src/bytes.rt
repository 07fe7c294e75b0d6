ghost use Rattle.std.specs.Prelude.{◌≡◌, ◌⊎◌, ℕ, IfOk, IfErr, MatchResult};
ghost use Rattle.bundle_text.specs.Breaks.{Breaks};
ghost use Rattle.bundle_text.specs.Refused.{IsRefusal};
ghost use Rattle.aplsv_top.specs.Headline.{IsOutputOf, IsOutputFor};

use crate::output::output_in;
use apl_arrays::{Bytes, WantOfMemory};
use apl_session::FinishedRun;
use aplsv_replay::replay;
use bundle_devices::memory_devices;
use bundle_text::{Bundle, BundleRefused, BundleRule, read};
use std::alloc::Global;

/// What the program writes for these bytes: the output of a run of the bundle that they are the text of, over its files and
/// readings and an empty shelf for each user. The journal in it is one legal history, and each transcript is its user's
/// lines evaluated alone with the answers that the journal gives that user and the replies of its shelf. `Malformed` exactly
/// where the bytes are the text of no bundle, at the place where they break a rule. It takes memory for the bundle, the run and
/// the bytes.
pub fn replay_bytes(alloc: Global, bytes: &[u8]) -> Result<Bytes, BundleRefused>
    ensures done { IfOk result (λ text. IsOutputFor bytes.now text.items) }
    ensures refused { IfErr result (λ why. IsRefusal why (Breaks bytes.now)) }
    ensures only { (offset : ℕ) (rule : BundleRule) → Breaks bytes.now offset rule →
        MatchResult result (λ _. ⊥) (λ why. (why ≡ BundleRefused.Malformed offset rule) ⊎ (why ≡ BundleRefused.WantOfMemory)) }
{
    let bundle = read(alloc, bytes)?;
    Ok(output_for(alloc, bundle)?)
}

// What is written of a run of a bundle.
fn output_for(alloc: Global, bundle: Bundle) -> Result<Bytes, WantOfMemory>
    ensures { IfOk result (λ text. IsOutputOf bundle text.items) }
{
    let devices = memory_devices(alloc, &bundle)?;
    let FinishedRun {
        ended,
        devices: _devices,
    } = replay(alloc, bundle, devices);
    output_in(alloc, ended)
}
