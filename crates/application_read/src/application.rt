//! From the texts to the application.
ghost use Rattle.std.specs.Prelude.{◌≢◌, Ok, Err, IfOk, IfErr};
ghost use Rattle.application_types.specs.Fitted.{IsFit};
ghost use Rattle.application_read.specs.{Texts.{TextsGenerate, TextsHaveFault, Gives}, declared.fault.ApplicationFault.{ApplicationFault as Fault}};
ghost use Rattle.application_read.specs.{declared.fault.ApplicationFault.TheVariants.{Memory}, declared.application.Application.{Application as Generated}};

use crate::definition_text::generate;
use crate::fault::ApplicationFault;
use application_check::unit_check::fit;
use application_types::generation::Generation;
use application_types::units::Units;
use std::alloc::Global;
use unit_read::read_units;

/// The generation of a definition, with the program units that fit it.
#[derive(Drop)]
pub struct Application {
    /// The generation.
    pub generation: Generation,
    /// The units, one at least for each PROGRAM statement of the definition.
    pub units: Units,
}

/// The application that the text of a definition and that of its units make, or their first fault. Each text has at most
/// 16,777,216 bytes.
pub fn read_application(
    alloc: Global,
    definition: &[u8],
    units: &[u8],
) -> Result<Application, ApplicationFault>
    // The texts generate what is answered.
    ensures found { IfOk result (λ a. TextsGenerate definition.now units.now a) }
    // The units were fitted to the generation.
    ensures fitted { IfOk result (λ a. IsFit a.generation a.units) }
    // What the texts generate is answered, unless memory runs out.
    ensures only { (a : Generated) → TextsGenerate definition.now units.now a → Gives result (Ok a) }
    // The fault that is answered is there.
    ensures fault { IfErr result (λ e. e ≢ Memory → TextsHaveFault definition.now units.now e) }
    // Texts with the fault are refused for it, unless memory runs out.
    ensures refused { (e : Fault) → TextsHaveFault definition.now units.now e → Gives result (Err e) }
{
    let generation = generate(alloc, definition)?;
    let read = read_units(alloc, units)?;
    let units = fit(alloc, read, &generation)?;
    Ok(Application { generation, units })
}
