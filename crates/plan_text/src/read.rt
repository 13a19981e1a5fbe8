//! Reading of a plan.

ghost use Rattle.std.specs.Prelude.{◌≡◌, ◌≢◌, ◌≤◌, Ok, Err, IfErr, IfOk, IfSome};
ghost use Rattle.edge_streams.specs.Faults.{Rises};
ghost use Rattle.plan_text.specs.PlanText as spec;
ghost use Rattle.plan_text.specs.Sound.{IsOfText};

use crate::images::starts;
use crate::sketch::read_sketch;
use edge_files::Files;
use plan_model::Plan;
use plan_tables::PlanFault;
use std::alloc::Global;

/// The plan of a text, with what the files of its images start with, or its first fault in this
/// order:
///
/// - `Toml`: the text has more than 1,048,576 bytes, or isn't a document of TOML.
/// - `Unknown`, `Missing`, `Shape`, `Range`: of the top table, then of each layer, then of each
///   function. For one table first the first key in byte order that it may not have, then key by
///   key.
/// - `Name`: a name is malformed or repeated in its kind, or a function's layer is unknown.
/// - `Below`: a layer stands on no earlier layer.
/// - `File`, `Image`: for each image in order. The image at which all files together, or the file
///   bytes of their segments together, pass 67,108,864 bytes is `Image(TooBig)`.
///
/// `File` comes exactly where a read failed and the count of faults of the files rose: the text
/// was right then, and so was each image before. `Memory` has no cause that could be named. The
/// files stay as they are.
pub fn read_plan<F: Files>(alloc: Global, bytes: &[u8], files: &mut F) -> Result<Plan, PlanFault>
    ensures plan { IfOk result (λ plan. IfSome (F.contents files.old) (λ file_of.
        spec.plan bytes.now file_of ≡ Ok plan)) }
    ensures text { IfOk result (λ plan. IsOfText bytes.now plan) }
    ensures refused { IfErr result (λ fault. fault ≢ PlanFault.Memory → fault ≢ PlanFault.File →
        IfSome (F.contents files.old) (λ file_of. spec.plan bytes.now file_of ≡ Err fault)) }
    ensures order { IfErr result (λ fault. fault ≢ PlanFault.Memory →
        spec.IsInOrder bytes.now fault) }
    ensures failed { result ≡ Err PlanFault.File → Rises (F.faults files.old) (F.faults files.new) }
    ensures place { result ≡ Err PlanFault.File → IfSome (F.contents files.old) (λ file_of.
        spec.StopsAtFile bytes.now file_of) }
    ensures kept { F.contents files.new ≡ F.contents files.old }
    ensures counted { result ≢ Err PlanFault.File → F.faults files.new ≡ F.faults files.old }
    ensures monotone { F.faults files.old ≤ F.faults files.new }
{
    let sketch = read_sketch(alloc, bytes)?;
    let starts = starts(alloc, files, &sketch.images, sketch.numbers.stack_bytes)?;
    Ok(Plan::new(
        alloc,
        sketch.numbers,
        sketch.layers,
        sketch.functions,
        starts,
    )?)
}
