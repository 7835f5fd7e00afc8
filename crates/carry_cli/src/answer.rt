//! What becomes of the files of a BASE that is carried, in lines.
ghost use Rattle.std.specs.{Prelude.{◌≡◌, ◌++◌, IfOk}, String.{string_bytes}};
ghost use Rattle.kdcfile_update.specs.Report.{dropped_line, up_to_date_line, update_line};
ghost use Rattle.carry_cli.specs.Telling.{answer_status, answer_text, hindrance_line, judged_line, lost_text, report_text, would_drop_line};

use application_types::generation::Generation;
use call_parts::missing_line;
use kd_base::{Bytes, OutOfMemory};
use kd_device::Half;
use kd_update::{Dropped, UpdateError};
use kdcs_types::Row;
use monitor_parts::output_lines::put_rows;
use refusals::Status;
use std::alloc::{AllocError, Global};

/// The status where rows would go that may not, and nothing was written.
const WOULD_DROP: Status = Status { code: 10 };

/// Why files are not carried.
#[derive(Clone, Copy)]
pub enum Hindrance {
    /// The file of this half is empty or not there, beside a copy in the other one.
    Missing(Half),
    /// The first file is a KDCFILE by itself, and the second one a copy.
    TwoMeanings,
    /// The files stand for no tables, or these are judged so. It is never want of memory.
    Judged(UpdateError),
    /// After the number of the copy that counts there is no next one.
    Spent,
}

/// What becomes of the files of a BASE.
#[derive(Drop)]
pub enum Answer {
    /// They are as the texts ask, and copies were made alike. A half is lost where a call on it failed.
    UpToDate(Option<Half>),
    /// It was tried: they are as the texts ask.
    WouldKeep,
    /// They were carried; so many rows of each kind went. A half is lost where a call on it failed.
    Carried(Dropped, Option<Half>),
    /// It was tried: they would be carried, and these rows would go.
    WouldCarry(Dropped, Vec<Row>),
    /// These rows would go, which may not.
    WouldDrop(Vec<Row>),
    Hindered(Hindrance),
}

fn update_line(alloc: Global, name: &[u8]) -> Result<Bytes, OutOfMemory>
    ensures { IfOk result (λ line. line ≡ update_line name.now) }
{
    let mut line = Bytes::from_slice(alloc, b"UPDATE ")?;
    line.append(name)?;
    line.push(b'\n')?;
    Ok(line)
}

fn dropped_line(alloc: Global, gone: Dropped) -> Result<Bytes, AllocError>
    ensures { IfOk result (λ line. line ≡ dropped_line gone) }
{
    let Dropped {
        gssbs,
        tlss,
        ulss,
        services,
        jobs,
        shown,
    } = gone;
    let line = format!(in alloc;
        "DROPPED TLS {tlss} ULS {ulss} SERVICES {services} JOBS {jobs} SHOWN {shown} GSSBS {gssbs}\n"
    )?;
    Ok(Bytes::from_vec(line.into_bytes()))
}

// The report of `update`.
fn report_text(alloc: Global, generation: &Generation, gone: Dropped) -> Result<Bytes, OutOfMemory>
    ensures { IfOk result (λ text. text ≡ report_text generation.now gone) }
{
    let mut text = update_line(alloc, generation.max().appliname.as_slice())?;
    text.append(dropped_line(alloc, gone)?.as_slice())?;
    text.append(b"KDCFILE READY\n")?;
    Ok(text)
}

fn lost_text(lost: Option<Half>) -> &'static [u8]
    ensures { result.now ≡ lost_text lost }
{
    match lost {
        None => b"",
        Some(Half::First) => b"COPY A LOST\n",
        Some(Half::Second) => b"COPY B LOST\n",
    }
}

// Why the files are refused, in the words of `update`.
fn judged_line(alloc: Global, why: UpdateError) -> Result<String, AllocError>
    ensures { IfOk result (λ line. string_bytes line ≡ judged_line why) }
{
    match why {
        UpdateError::NotKdcfile => String::from_str(alloc, "KDCFILE NOT A KDCFILE\n"),
        UpdateError::OtherBlksize(n) => format!(in alloc; "KDCFILE OTHER BLKSIZE {n}\n"),
        UpdateError::SmallerPool(n) => format!(in alloc; "KDCFILE SMALLER POOL {n}\n"),
        UpdateError::TooManyGssbs(n) => format!(in alloc; "KDCFILE TOO MANY GSSBS {n}\n"),
        UpdateError::TooLarge(n) => format!(in alloc; "KDCFILE TABLES TOO LARGE {n}\n"),
        UpdateError::Memory => Ok(String::new(alloc)),
    }
}

/// Why files are not carried, or not backed up.
pub(crate) fn hindrance_line(alloc: Global, why: Hindrance) -> Result<String, AllocError>
    ensures { IfOk result (λ line. string_bytes line ≡ hindrance_line why) }
{
    match why {
        Hindrance::Missing(half) => String::from_str(alloc, missing_line(half)),
        Hindrance::TwoMeanings => String::from_str(alloc, "KDCFILE HAS TWO MEANINGS\n"),
        Hindrance::Judged(why) => judged_line(alloc, why),
        Hindrance::Spent => String::from_str(alloc, "KDCFILE SEQUENCE SPENT\n"),
    }
}

// How many rows would go.
fn would_drop_line(alloc: Global, count: usize) -> Result<String, AllocError>
    ensures { IfOk result (λ line. string_bytes line ≡ would_drop_line count) }
{
    format!(in alloc; "WOULD DROP {count}\n")
}

// What was done, and which half is lost.
fn kept_text(alloc: Global, lost: Option<Half>) -> Result<Bytes, OutOfMemory>
    ensures { IfOk result (λ text. text ≡ up_to_date_line ++ lost_text lost) }
{
    let mut text = Bytes::from_slice(alloc, b"KDCFILE UP TO DATE\n")?;
    text.append(lost_text(lost))?;
    Ok(text)
}

impl Answer {
    /// All that a call says with this answer.
    pub(crate) fn text(&self, alloc: Global, generation: &Generation) -> Result<Bytes, OutOfMemory>
        ensures { IfOk result (λ text. text ≡ answer_text generation.now self.now) }
    {
        match self {
            Answer::UpToDate(lost) => kept_text(alloc, *lost),
            Answer::WouldKeep => kept_text(alloc, None),
            Answer::Carried(gone, lost) => {
                let mut text = report_text(alloc, generation, *gone)?;
                text.append(lost_text(*lost))?;
                Ok(text)
            }
            Answer::WouldCarry(gone, rows) => {
                let mut text = Bytes::new(alloc);
                put_rows(alloc, rows, &mut text)?;
                text.append(report_text(alloc, generation, *gone)?.as_slice())?;
                Ok(text)
            }
            Answer::WouldDrop(rows) => {
                let mut text = Bytes::new(alloc);
                put_rows(alloc, rows, &mut text)?;
                text.append(would_drop_line(alloc, rows.len())?.as_bytes())?;
                Ok(text)
            }
            Answer::Hindered(why) => {
                let line = hindrance_line(alloc, *why)?;
                Ok(Bytes::from_vec(line.into_bytes()))
            }
        }
    }

    /// The status of a call with this answer.
    pub(crate) fn status(&self) -> Status
        ensures { result.code ≡ answer_status self.now }
    {
        match self {
            Answer::UpToDate(_) => Status::DONE,
            Answer::WouldKeep => Status::DONE,
            Answer::Carried(_, _) => Status::DONE,
            Answer::WouldCarry(_, _) => Status::DONE,
            Answer::WouldDrop(_) => WOULD_DROP,
            Answer::Hindered(_) => Status::FILE,
        }
    }
}
