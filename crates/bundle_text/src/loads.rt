ghost use Rattle.std.specs.Prelude.{◌≡◌, ◌≤◌, IfOk, string_bytes};
ghost use Rattle.bundle_text.specs.Bundle.{BundleText};
ghost use Rattle.bundle_text.specs.Load.{load_text};

use crate::bundle::Bundle;
use crate::refused::BundleRefused;
use crate::text::read;
use apl_arrays::WantOfMemory;
use std::alloc::Global;

/// The text of a load in front of its number.
const FRONT: &str = "user 1001
|∇SEND N;I
|I←0
|A:→(I≥N)/0
|X←I+⍳10⌊N-I
|I←I+10
|→A
|∇
|1002 ⎕SVO 'X'
|1 1 1 1 ⎕SVC 'X'
|SEND ";

/// The text behind it.
const REST: &str = "
|X←⍳0
user 1002
|∇R←GET;V
|R←0
|A:V←X
|→(0=⍴V)/0
|R←R+(+/V)
|→A
|∇
|1001 ⎕SVO 'X'
|1 1 1 1 ⎕SVC 'X'
|GET
end
";

/// The bundle of a load of 1 to 100,000 numbers: user 1001 gives the numbers from 1 on, ten at a time, to user 1002, who
/// adds them. It takes memory for the bundle and its text.
pub fn load(alloc: Global, n: u32) -> Result<Bundle, WantOfMemory>
    requires some { 1 ≤ n }
    requires few { n ≤ 100000 }
    ensures { IfOk result (λ bundle. BundleText (load_text n) bundle) }
{
    let text = load_text(alloc, n)?;
    match read(alloc, text.as_bytes()) {
        Ok(bundle) => Ok(bundle),
        Err(BundleRefused::WantOfMemory) => Err(WantOfMemory),
        Err(BundleRefused::Malformed { .. }) => unreachable!(),
    }
}

// The text of a load.
fn load_text(alloc: Global, n: u32) -> Result<String, WantOfMemory>
    requires { n ≤ 100000 }
    ensures { IfOk result (λ text. string_bytes text ≡ load_text n) }
{
    let mut text = String::new(alloc);
    text.push_str(FRONT)?;
    write!(text, "{n}")?;
    text.push_str(REST)?;
    Ok(text)
}
