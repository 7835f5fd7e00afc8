//! All that is found in the texts of an application.
ghost use Rattle.std.specs.{Prelude.{◌≡◌, false, IfOk}, List.{All}};
ghost use Rattle.lab_check.specs.Verdicts.{IsVerdict, IsNoMemory, IsOfScript, IsToldFirst, AreToldFor};
ghost use Rattle.lab_check.specs.Lines.{word_of};
ghost use Rattle.application_read.specs.{Faults.{text_of}, Texts.{is_memory}};

use crate::definition::definition_refusals;
use crate::lab_findings::{Details, Refusal, Refusals, TextName};
use crate::script::script_refusals;
use crate::units::units_refusals;
use application_check::unit_check::FitFault;
use application_read::{Application, ApplicationFault, read_application};
use application_types::generation::Generation;
use kd_base::OutOfMemory;
use std::alloc::Global;

/// What the definition and the units are taken for.
#[derive(Drop)]
pub enum Verdict {
    /// The application that they make.
    Accepted(Application),
    /// Their first fault.
    Refused(ApplicationFault),
}

/// What was found in the texts.
pub struct Checked {
    /// What the definition and the units are taken for.
    pub verdict: Verdict,
    /// Why the texts are refused, in the order in which it comes where one fault after another is mended. At most 1,000
    /// refusals of a text are told.
    pub refusals: Vec<Refusal>,
    /// What is at fault in them.
    pub details: Details,
}

impl Drop for Checked {
    fn drop(self) {
        let Checked {
            verdict,
            refusals,
            details,
        } = self;
        let _ = verdict;
        let _ = refusals;
        let _ = details;
    }
}

/// The three texts of a call.
#[derive(Clone, Copy)]
struct Texts<'a> {
    definition: &'a [u8],
    units: &'a [u8],
    script: Option<&'a [u8]>,
}

/// What is told of texts.
#[derive(Drop)]
struct Told {
    refusals: Vec<Refusal>,
    details: Details,
}

// What is refused behind the units: the script.
#[tactic(auto, using(crate::proofs::Later::none_later))]
fn later_refusals(
    alloc: Global,
    generation: &Generation,
    script: Option<&[u8]>,
    details: &mut Details,
) -> Result<Refusals, OutOfMemory>
    ensures { IfOk result (λ refused. All IsOfScript refused.items.items) }
{
    let mut refused = Refusals::new(alloc);
    script_refusals(alloc, generation, script, &mut refused, details)?;
    Ok(refused)
}

// What is told of texts that make an application.
fn told_of_accepted(
    alloc: Global,
    texts: Texts,
    application: &Application,
) -> Result<Told, OutOfMemory>
    ensures { IfOk result (λ told. All IsOfScript told.refusals.items) }
{
    let mut details = Details::new(alloc);
    let refused = later_refusals(alloc, &application.generation, texts.script, &mut details)?;
    Ok(Told {
        refusals: refused.items,
        details,
    })
}

// What is found in texts that make no application.
fn find_in_refused(
    alloc: Global,
    texts: Texts,
    refused: &mut Refusals,
    details: &mut Details,
) -> Result<(), OutOfMemory> {
    let mended = definition_refusals(alloc, texts.definition, refused, details)?;
    units_refusals(alloc, texts.units, &mended, refused, details)?;
    match &mended {
        Some(mended) => script_refusals(alloc, &mended.generation, texts.script, refused, details),
        None => Ok(()),
    }
}

// The text that a fault counts its line in.
fn text_name(fault: &ApplicationFault) -> TextName
    ensures { is_memory fault.now ≡ false → word_of result ≡ text_of fault.now }
{
    match fault {
        ApplicationFault::Definition(_) => TextName::Definition,
        ApplicationFault::Units(_) => TextName::Units,
        ApplicationFault::Fit(FitFault::NoUnit(_)) => TextName::Definition,
        ApplicationFault::Fit(
            FitFault::NoLabel(_)
            | FitFault::FieldPastArea(_)
            | FitFault::LiteralFollowUp(_)
            | FitFault::Memory,
        ) => TextName::Units,
        ApplicationFault::Memory => TextName::Definition,
    }
}

// The refusals, with this fault as the first, in place of the one that is there.
fn led_by(
    alloc: Global,
    fault: &ApplicationFault,
    refused: Refusals,
) -> Result<Vec<Refusal>, OutOfMemory>
    ensures { IfOk result (λ told. is_memory fault.now ≡ false → IsToldFirst fault.now told.items) }
{
    let mut told = Vec::new(alloc);
    told.push(Refusal {
        text: text_name(fault),
        line: fault.line(),
        name: fault.name(),
    })?;
    let mut others = refused.items;
    if !others.is_empty() {
        others.remove(0);
    }
    told.append(&mut others)?;
    Ok(told)
}

// What is told of texts that are refused for this fault.
fn told_of_refused(
    alloc: Global,
    texts: Texts,
    fault: &ApplicationFault,
) -> Result<Told, OutOfMemory>
    ensures { IfOk result (λ told. is_memory fault.now ≡ false → IsToldFirst fault.now told.refusals.items) }
{
    let mut refused = Refusals::new(alloc);
    let mut details = Details::new(alloc);
    find_in_refused(alloc, texts, &mut refused, &mut details)?;
    let refusals = led_by(alloc, fault, refused)?;
    Ok(Told { refusals, details })
}

// What the definition and the units are taken for.
fn verdict_of(alloc: Global, definition: &[u8], units: &[u8]) -> Result<Verdict, OutOfMemory>
    ensures { IfOk result (λ verdict. IsVerdict definition.now units.now verdict) }
{
    match read_application(alloc, definition, units) {
        Ok(application) => Ok(Verdict::Accepted(application)),
        Err(ApplicationFault::Memory) => Err(OutOfMemory),
        Err(fault) => Ok(Verdict::Refused(fault)),
    }
}

// What is told of texts that are taken for this.
fn told_of(alloc: Global, texts: Texts, verdict: &Verdict) -> Result<Told, OutOfMemory>
    ensures { IfOk result (λ told. IsNoMemory verdict.now → AreToldFor verdict.now told.refusals.items) }
{
    match verdict {
        Verdict::Accepted(application) => told_of_accepted(alloc, texts, application),
        Verdict::Refused(fault) => told_of_refused(alloc, texts, fault),
    }
}

/// All that would be refused in the text of a definition, of its units and of a script, and what is at fault. Of several faults in the operands of one statement the first is told. The script is read with what the
/// definition, mended where it is refused, generates.
#[tactic(auto, using(crate::proofs::Taken::verdict_is_no_memory))]
pub fn findings(
    alloc: Global,
    definition: &[u8],
    units: &[u8],
    script: Option<&[u8]>,
) -> Result<Checked, OutOfMemory>
    // The definition and the units make the application that is answered, or have the fault that is.
    ensures verdict { IfOk result (λ checked. IsVerdict definition.now units.now checked.verdict) }
    // Where they have a fault, it is told first; else only the script is refused.
    ensures told { IfOk result (λ checked. AreToldFor checked.verdict checked.refusals.items) }
{
    let texts = Texts {
        definition,
        units,
        script,
    };
    let verdict = verdict_of(alloc, definition, units)?;
    let told = told_of(alloc, texts, &verdict)?;
    Ok(Checked {
        verdict,
        refusals: told.refusals,
        details: told.details,
    })
}
