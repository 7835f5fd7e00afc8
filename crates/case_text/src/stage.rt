//! What the lines of a text of cases have said so far.

use crate::answer::Answer;
use crate::escapes::unescape;
use crate::failing::{Failing, Failures, Tries, Try};
use crate::files::{Files, Which};
use crate::line::{Said, failing_and_text, number, number_and_text, numbers, split};
use crate::program::Program;
use crate::texts::{Texts, append_words};
use crate::wrong::Wrong;
use kd_base::{Bytes, OutOfMemory};
use kd_device::{MemDevice, MemRoom, MemTwin};
use std::alloc::Global;
use std::mem;

/// Whether a line was done, which fails for want of memory alone. What is wrong with it is said to the `Wrong`.
type Done = Result<(), OutOfMemory>;

/// The choices that each stop is tried with: the old bytes of each write that is not synced, the new ones, and five
/// mixtures.
const CHOICES: [u64; 7] = [0, 1, 2, 3, 5, 6, 7];

/// The texts, the files and the failing calls of a case, and what its last call did.
pub struct Stage {
    texts: Texts,
    failures: Failures,
    tries: Tries,
    /// The files of the case.
    files: Files,
    /// The words of the last call.
    words: Vec<String>,
    /// What the last call did, at each of its tries.
    answers: Vec<Answer>,
    /// What the call before it did.
    left: Vec<Answer>,
    /// Whether the status of the last call is still to be said.
    unsaid: bool,
    /// The twin of the last plain call.
    twin: Option<MemTwin>,
    /// And its device for a backup.
    backup: Option<MemDevice>,
    /// What is wrong with the last line.
    wrong: Wrong,
    cases: u64,
    calls: u64,
}

impl Drop for Stage {
    fn drop(self) {
        let Stage {
            texts,
            failures,
            tries,
            files,
            words,
            answers,
            left,
            unsaid,
            twin,
            backup,
            wrong,
            cases,
            calls,
        } = self;
        let _ = texts;
        let _ = failures;
        let _ = tries;
        let _ = files;
        let _ = words;
        let _ = answers;
        let _ = left;
        let _ = unsaid;
        let _ = twin;
        let _ = backup;
        let _ = wrong;
        let _ = cases;
        let _ = calls;
    }
}

// Puts these bytes in the place of those that are there; whether there are so many.
fn put_bytes(file: &mut [u8], at: u64, bytes: &[u8]) -> bool {
    let mut place = at as usize;
    for byte in bytes {
        let Some(there) = file.get_mut(place) else {
            return false;
        };
        *there = *byte;
        place = place.saturating_add(1);
    }
    true
}

impl Stage {
    pub fn new(alloc: Global) -> Stage {
        Stage {
            texts: Texts::new(alloc),
            failures: Failures::none(alloc),
            tries: Tries::Plain,
            files: Files::empty(alloc),
            words: Vec::new(alloc),
            answers: Vec::new(alloc),
            left: Vec::new(alloc),
            unsaid: false,
            twin: None,
            backup: None,
            wrong: Wrong::nothing(alloc),
            cases: 0,
            calls: 0,
        }
    }

    /// How many cases there were.
    pub fn cases(&self) -> u64 {
        self.cases
    }

    /// How many calls there were that are done with, each try counted.
    pub fn calls(&self) -> u64 {
        self.calls
    }

    /// What is wrong with the last line, if something is.
    pub fn wrong(&self) -> Option<&str> {
        self.wrong.text()
    }

    /// Does what the line says.
    pub fn obey<P: Program>(&mut self, alloc: Global, text: &str) -> Done {
        self.wrong.clear();
        let (word, rest) = split(text);
        let done = match word {
            "" | "*" => Some(Ok(())),
            "case" => Some(self.begin_case()),
            "call" => Some(self.call::<P>(alloc, rest)),
            "restore" if rest.is_empty() => Some(self.files.restore()),
            "second" => self.obey_second(alloc, rest),
            "backup" => self.obey_backup(alloc, rest),
            _ => self.obey_any(alloc, word, rest),
        };
        match done {
            Some(done) => done,
            None => self.wrong.say("no such line"),
        }
    }

    // Does what a line behind the word `second` says. None where it is no such line, here as below.
    fn obey_second(&mut self, alloc: Global, text: &str) -> Option<Done> {
        let (word, rest) = split(text);
        self.obey_half(alloc, Which::Second, word, rest)
    }

    // Does what a line behind the word `backup` says.
    fn obey_backup(&mut self, alloc: Global, text: &str) -> Option<Done> {
        let (word, rest) = split(text);
        if word == "stop" {
            let (call, choice) = numbers(rest)?;
            return Some(self.try_with(Tries::BackupStop(call, choice)));
        }
        self.obey_half(alloc, Which::Backup, word, rest)
    }

    fn obey_any(&mut self, alloc: Global, word: &str, rest: &str) -> Option<Done> {
        if let Some(done) = self.obey_text(alloc, word, rest) {
            return Some(done);
        }
        if let Some(done) = self.obey_call(alloc, word, rest) {
            return Some(done);
        }
        self.obey_half(alloc, Which::First, word, rest)
    }

    // Does what a line about texts says.
    fn obey_text(&mut self, alloc: Global, word: &str, rest: &str) -> Option<Done> {
        match word {
            "text" => Some(self.texts.begin(alloc, rest, true)),
            "file" => Some(self.begin_file(alloc, rest)),
            "|" => Some(self.append(alloc, rest, 1, "\n")),
            "+" => Some(self.append(alloc, rest, 1, "")),
            "fill" => {
                let (times, piece) = number_and_text(rest)?;
                Some(self.append(alloc, piece, times, ""))
            }
            "line" => {
                let (at, line) = number_and_text(rest)?;
                Some(self.set_line(alloc, at, line))
            }
            _ => None,
        }
    }

    fn begin_file(&mut self, alloc: Global, rest: &str) -> Done {
        match rest.split_once(" = ") {
            Some((name, shared)) => {
                let done = self.texts.take_shared(alloc, name, shared)?;
                self.wrong.unless(done, "no such text")
            }
            None => self.texts.begin(alloc, rest, false),
        }
    }

    fn append(&mut self, alloc: Global, piece: &str, times: u64, end: &str) -> Done {
        let done = self.texts.append(alloc, piece, times, end)?;
        self.wrong.unless(done, "no such text")
    }

    fn set_line(&mut self, alloc: Global, at: u64, line: &str) -> Done {
        let done = self.texts.set_line(alloc, at, line)?;
        self.wrong.unless(done, "no such text")
    }

    // Does what a line about the tries of the next call, or about what the last one answered and sent, says.
    fn obey_call(&mut self, alloc: Global, word: &str, rest: &str) -> Option<Done> {
        match word {
            "stop" => {
                let (call, choice) = numbers(rest)?;
                Some(self.try_with(Tries::Stop(call, choice)))
            }
            "stops" => {
                let (from, to) = numbers(rest)?;
                Some(self.try_with(Tries::Stops(from, to)))
            }
            "again" if rest.is_empty() => Some(self.try_with(Tries::Again)),
            "=" => {
                let status = rest.parse::<u8>().ok()?;
                self.unsaid = self.unsaid && self.answers.is_empty();
                Some(self.judge(alloc, Said::Status(status)))
            }
            ">" => Some(self.judge(alloc, Said::Sent(rest))),
            _ => None,
        }
    }

    // Does what a line about this file, or about the calls on it, says.
    fn obey_half(&mut self, alloc: Global, which: Which, word: &str, rest: &str) -> Option<Done> {
        match word {
            "empty" if rest.is_empty() => {
                self.files.file_mut(which).clear();
                Some(Ok(()))
            }
            "same" if rest.is_empty() => Some(self.judge(alloc, Said::Same(which))),
            "cut" => Some(self.cut(which, number(rest)?)),
            "length" => Some(self.judge(alloc, Said::Length(which, number(rest)?))),
            "put" => {
                let (at, bytes) = number_and_text(rest)?;
                Some(self.put(alloc, which, at, bytes))
            }
            "holds" => {
                let (at, bytes) = number_and_text(rest)?;
                Some(self.judge(alloc, Said::Holds(which, at, bytes)))
            }
            _ => self.obey_failing(which, word, rest),
        }
    }

    fn obey_failing(&mut self, which: Which, word: &str, rest: &str) -> Option<Done> {
        let (failing, rest) = failing_and_text(which, rest)?;
        match word {
            "fail" => Some(self.failures.push(failing, number(rest)?)),
            "fails" => {
                let (from, to) = numbers(rest)?;
                Some(self.try_with(Tries::Fails(failing, from, to)))
            }
            _ => None,
        }
    }

    fn begin_case(&mut self) -> Done {
        self.finish_call()?;
        self.cases = self.cases.saturating_add(1);
        self.texts.begin_case();
        self.failures.clear();
        self.tries = Tries::Plain;
        self.files.clear();
        self.twin = None;
        self.backup = None;
        Ok(())
    }

    /// Ends a text.
    pub fn end(&mut self) -> Done {
        self.wrong.clear();
        self.finish_call()
    }

    // Says what no line has said of the last call, which is then done with.
    fn finish_call(&mut self) -> Done {
        let unsaid = self.unsaid;
        self.unsaid = false;
        self.wrong
            .unless(!unsaid, "the call before has no status line")?;
        self.say_sent_too()?;
        self.calls = self.calls.saturating_add(self.answers.len() as u64);
        mem::swap(&mut self.left, &mut self.answers);
        self.answers.clear();
        Ok(())
    }

    // Says the last line that a try of the call sent and no line of the case has named.
    fn say_sent_too(&mut self) -> Done {
        let mut last = None;
        for answer in &self.answers {
            last = answer.next_line().or(last);
        }
        match last {
            Some(line) => self.wrong.say_sent_too(line),
            None => Ok(()),
        }
    }

    fn try_with(&mut self, tries: Tries) -> Done {
        let first = matches!(self.tries, Tries::Plain);
        self.tries = tries;
        self.wrong
            .unless(first, "the next call is tried otherwise already")
    }

    fn put(&mut self, alloc: Global, which: Which, at: u64, text: &str) -> Done {
        let mut bytes = Bytes::new(alloc);
        if !unescape(alloc, text, 0, &mut bytes)? {
            return self.wrong.say("no such bytes");
        }
        let fits = put_bytes(self.files.file_mut(which), at, bytes.as_slice());
        self.wrong.unless(fits, "past the end of the KDCFILE")
    }

    fn cut(&mut self, which: Which, length: u64) -> Done {
        let file = self.files.file_mut(which);
        let fits = length <= file.len() as u64;
        file.truncate(length as usize);
        self.wrong.unless(fits, "past the end of the KDCFILE")
    }

    // Makes the call that the line asks for, at each of its tries. The failing calls are then done with.
    fn call<P: Program>(&mut self, alloc: Global, words: &str) -> Done {
        self.finish_call()?;
        self.words.clear();
        append_words(alloc, &mut self.words, words)?;
        self.unsaid = true;
        self.try_call::<P>(alloc)?;
        self.failures.clear();
        Ok(())
    }

    // The call, at each of its tries.
    fn try_call<P: Program>(&mut self, alloc: Global) -> Done {
        let tries = self.tries;
        self.tries = Tries::Plain;
        match tries {
            Tries::Plain => self.call_once::<P>(alloc),
            Tries::Fails(kind, from, to) => self.call_failing::<P>(alloc, kind, from, to),
            Tries::Stop(stop, choice) => self.call_after_one::<P>(alloc, stop, choice),
            Tries::Stops(from, to) => self.call_after_each::<P>(alloc, from, to),
            Tries::BackupStop(stop, choice) => self.call_after_backup::<P>(alloc, stop, choice),
            Tries::Again => self.call_again::<P>(alloc),
        }
    }

    // The status of the call over this twin and this device.
    fn status_of<P: Program>(
        &self,
        alloc: Global,
        twin: &mut MemTwin,
        backup: &mut MemDevice,
    ) -> Result<u8, OutOfMemory> {
        let mut texts = Vec::new(alloc);
        self.texts.append_own(alloc, &mut texts)?;
        let mut room = MemRoom::new(alloc, texts, self.failures.texts.clone()?)?;
        Ok(P::call(alloc, &self.words, &mut room, twin, backup))
    }

    // What the call over this twin and this device, which have these files, does.
    fn answer_of<P: Program>(
        &self,
        alloc: Global,
        files: &Files,
        twin: &mut MemTwin,
        backup: &mut MemDevice,
        at: Try,
    ) -> Result<Answer, OutOfMemory> {
        let status = self.status_of::<P>(alloc, twin, backup)?;
        let mut answer = Answer::new(alloc, at, status);
        answer.take(files, twin, backup)?;
        Ok(answer)
    }

    // What the call over these files does.
    fn answer_over<P: Program>(
        &self,
        alloc: Global,
        files: &Files,
        at: Try,
    ) -> Result<Answer, OutOfMemory> {
        let mut twin = files.twin(alloc, &self.failures.twin)?;
        let mut backup = files.device(alloc, &self.failures.backup)?;
        self.answer_of::<P>(alloc, files, &mut twin, &mut backup, at)
    }

    // The call over the files of the case, which become those that it leaves.
    fn call_once<P: Program>(&mut self, alloc: Global) -> Done {
        let mut twin = self.files.twin(alloc, &self.failures.twin)?;
        let mut backup = self.files.device(alloc, &self.failures.backup)?;
        let done = self.call_over_twin::<P>(alloc, &mut twin, &mut backup);
        self.twin = Some(twin);
        self.backup = Some(backup);
        done
    }

    fn call_over_twin<P: Program>(
        &mut self,
        alloc: Global,
        twin: &mut MemTwin,
        backup: &mut MemDevice,
    ) -> Done {
        let answer = self.answer_of::<P>(alloc, &self.files, twin, backup, Try::Plain)?;
        self.answers.push(answer)?;
        self.keep_files()
    }

    // The files of the case become those that the last try left.
    fn keep_files(&mut self) -> Done {
        match self.answers.last() {
            Some(answer) => self.files.copy(answer.files()),
            None => Ok(()),
        }
    }

    // The call with this number failing. The files stay.
    fn call_with<P: Program>(&mut self, alloc: Global, failing: Failing, number: u64) -> Done {
        self.failures.push(failing, number)?;
        let at = Try::Fails(failing, number);
        let answer = self.answer_over::<P>(alloc, &self.files, at)?;
        self.answers.push(answer)?;
        self.failures.pop(failing);
        Ok(())
    }

    // The call with each of these numbers failing.
    fn call_failing<P: Program>(
        &mut self,
        alloc: Global,
        failing: Failing,
        from: u64,
        to: u64,
    ) -> Done {
        for number in from..=to {
            self.call_with::<P>(alloc, failing, number)?;
        }
        self.wrong.unless(from <= to, "no number")
    }

    // The call over what each try of the last one left. The files stay.
    fn call_again<P: Program>(&mut self, alloc: Global) -> Done {
        let left = mem::replace(&mut self.left, Vec::new(alloc));
        self.call_over_each::<P>(alloc, &left)?;
        self.wrong.unless(!left.is_empty(), "no call before")
    }

    fn call_over_each<P: Program>(&mut self, alloc: Global, left: &[Answer]) -> Done {
        for before in left {
            let answer = self.answer_over::<P>(alloc, before.files(), before.at())?;
            self.answers.push(answer)?;
        }
        Ok(())
    }

    // Takes the files that a stop of the last plain call leaves; whether there is such a stop. That of a backup is as the
    // call left it.
    fn stop(
        &self,
        alloc: Global,
        stop: u64,
        choice: u64,
        files: &mut Files,
    ) -> Result<bool, OutOfMemory> {
        let Some(twin) = &self.twin else {
            return Ok(false);
        };
        let Some(backup) = &self.backup else {
            return Ok(false);
        };
        if stop > twin.calls() {
            return Ok(false);
        }
        let stopped = twin.after_stop(alloc, stop, choice)?;
        files.take_from(&stopped, backup)?;
        Ok(true)
    }

    // The same for a stop after so many calls on the file of a backup. The others are as the call left them.
    fn stop_backup(
        &self,
        alloc: Global,
        stop: u64,
        choice: u64,
        files: &mut Files,
    ) -> Result<bool, OutOfMemory> {
        let Some(twin) = &self.twin else {
            return Ok(false);
        };
        let Some(backup) = &self.backup else {
            return Ok(false);
        };
        if stop > backup.calls() {
            return Ok(false);
        }
        let stopped = backup.after_stop(alloc, stop, choice)?;
        files.take_from(twin, &stopped)?;
        Ok(true)
    }

    // The call over what a stop of the last plain call leaves; whether there is such a stop. The files stay.
    fn call_after_stop<P: Program>(
        &mut self,
        alloc: Global,
        stop: u64,
        choice: u64,
    ) -> Result<bool, OutOfMemory> {
        let mut files = Files::empty(alloc);
        self.call_over_stop::<P>(alloc, stop, choice, &mut files)
    }

    fn call_over_stop<P: Program>(
        &mut self,
        alloc: Global,
        stop: u64,
        choice: u64,
        files: &mut Files,
    ) -> Result<bool, OutOfMemory> {
        if !self.stop(alloc, stop, choice, files)? {
            self.wrong.say("there is no such stop")?;
            return Ok(false);
        }
        let answer = self.answer_over::<P>(alloc, files, Try::Stop(stop, choice))?;
        self.answers.push(answer)?;
        Ok(true)
    }

    fn call_after_one<P: Program>(&mut self, alloc: Global, stop: u64, choice: u64) -> Done {
        if self.call_after_stop::<P>(alloc, stop, choice)? {
            self.keep_files()?;
        }
        Ok(())
    }

    // The call over what a stop of the last plain call leaves of the file of a backup. The files become those that it leaves.
    fn call_after_backup<P: Program>(&mut self, alloc: Global, stop: u64, choice: u64) -> Done {
        let mut files = Files::empty(alloc);
        if !self.stop_backup(alloc, stop, choice, &mut files)? {
            return self.wrong.say("there is no such stop");
        }
        let answer = self.answer_over::<P>(alloc, &files, Try::Stop(stop, choice))?;
        self.answers.push(answer)?;
        self.keep_files()
    }

    // The call over what each of these stops leaves. The files stay.
    fn call_after_each<P: Program>(&mut self, alloc: Global, from: u64, to: u64) -> Done {
        for stop in from..=to {
            self.call_with_each_choice::<P>(alloc, stop)?;
        }
        self.wrong.unless(from <= to, "no number")
    }

    fn call_with_each_choice<P: Program>(&mut self, alloc: Global, stop: u64) -> Done {
        for choice in CHOICES {
            self.call_after_stop::<P>(alloc, stop, choice)?;
        }
        Ok(())
    }

    // Says what the last call did otherwise than this, at the first try that did so.
    fn judge(&mut self, alloc: Global, said: Said<'_>) -> Done {
        if self.answers.is_empty() {
            return self.wrong.say("no call before");
        }
        for answer in &mut self.answers {
            answer.judge(alloc, said, &mut self.wrong)?;
        }
        Ok(())
    }
}
