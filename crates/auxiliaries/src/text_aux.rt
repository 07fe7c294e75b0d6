ghost use Rattle.std.specs.Prelude.{◌≡◌, ◌≤◌, ◌++◌, [], IfOk, OnOk, OnErr, length, map, nat_le, if◌then◌else◌};
ghost use Rattle.std.specs.String.{string_bytes};
ghost use Rattle.apl_arrays.specs.Array.{scalar};
ghost use Rattle.apl_arrays.specs.List.{glyphs_in};
ghost use Rattle.apl_io.specs.Replies.{plain_read};
ghost use Rattle.auxiliaries.specs.File.{most_file_bytes};
ghost use Rattle.line_text.specs.Lines.{line_text};
ghost use Rattle.auxiliaries.specs.Plain.{plain_state, code_number, HasShortLines};
ghost use Rattle.auxiliaries.specs.Protocol.{AfterRead, answers, reading, writing, code, step_read, step_next, step_write, step_put, step_done};
ghost use Rattle.auxiliaries.specs.Served.{Replies, TakesStep, IsReadStep, IsReplaceStep, StaysServed, forgotten, KeepsFiles};

use crate::Replier;
use crate::answer::{Code, line_answer, no_line};
use crate::file_text::{FILE_LIMIT, file_name, line_bytes, text_lines};
use crate::request::{Request, request_of};
use crate::text_state::TextState;
use apl_arrays::{Array, Bytes, Glyph, Line, WantOfMemory};
use apl_io::{StoreError, TextStore};
use std::alloc::Global;
use std::collections::VecDeque;
use std::marker::Model;

/// The text auxiliary: it reads and writes the files of a store, line by line. It is seen as the store and where its
/// protocol stands.
#[derive(Debug, Drop)]
pub struct TextAux<T> {
    alloc: Global,
    store: T,
    state: TextState,
}

impl<T> Model for TextAux<T> {
    ghost use Rattle.auxiliaries.specs.Plain.{plain_state, HasShortLines};
    ghost use Rattle.auxiliaries.specs.Served.{Served};

    ghost Value = { Served T };

    ghost view = { λ a. record { store = a.store; state = plain_state a.state } };

    ghost invariant = { λ a. HasShortLines (plain_state a.state) };
}

impl<T: TextStore> TextAux<T> {
    ghost use Rattle.auxiliaries.specs.Protocol.{idle};

    /// An auxiliary over this store, between files.
    pub fn new(alloc: Global, store: T) -> Self
        ensures { result ≡ record { store = store; state = idle } }
    {
        TextAux {
            alloc,
            store,
            state: TextState::Idle,
        }
    }

    /// Begins anew, between files.
    pub fn forget(&mut self)
        ensures { self.new ≡ forgotten self.old }
    {
        self.state = TextState::Idle;
    }

    /// Its store.
    pub fn into_store(self) -> T
        ensures { result ≡ self.store }
    {
        self.store
    }

    /// The answer to a value, which is a request where it is a character vector. `READ name` asks the store for a file
    /// once, `DONE` asks it to replace one; no other request calls it. It takes memory for the answer, for the lines
    /// that are read, and for those that are to be written. `WantOfMemory` leaves the protocol where it stood.
    pub fn reply(&mut self, value: &Array) -> Result<Array, WantOfMemory>
        ensures ok { IfOk result (λ answer. Replies T.told T.faults self.old value.now answer self.new) }
        ensures state { OnErr result (self.new.state ≡ self.old.state) }
        ensures files { OnErr result (KeepsFiles (T.told self.old.store) (T.told self.new.store)) }
        ensures counted { T.faults self.old.store ≤ T.faults self.new.store }
    {
        match request_of(value) {
            Request::Read(name) => self.read(name),
            Request::Next => self.next(),
            Request::Write(name) => self.write(name),
            Request::Put(text) => self.put(text),
            Request::Done => self.done(),
            Request::Other => Code::Refused.answer(self.alloc),
        }
    }

    // `READ name`.
    fn read(&mut self, name: &[Glyph]) -> Result<Array, WantOfMemory>
        ensures ok { IfOk result (λ answer. TakesStep T.told T.faults (step_read name.now self.old.state) self.old answer self.new) }
        ensures state { OnErr result (self.new.state ≡ self.old.state) }
        ensures files { OnErr result (KeepsFiles (T.told self.old.store) (T.told self.new.store)) }
        ensures counted { T.faults self.old.store ≤ T.faults self.new.store }
    {
        if self.state.is_writing() {
            return Code::Refused.answer(self.alloc);
        }
        match file_name(self.alloc, name)? {
            Some(name) => self.read_file(name.as_str()),
            None => Code::Refused.answer(self.alloc),
        }
    }

    // Asks the store for a file of this name.
    fn read_file(&mut self, name: &str) -> Result<Array, WantOfMemory>
        ensures ok { IfOk result (λ answer. IsReadStep T.told T.faults self.old name.now answer self.new) }
        ensures state { OnErr result (self.new.state ≡ self.old.state) }
        ensures files { OnErr result (KeepsFiles (T.told self.old.store) (T.told self.new.store)) }
        ensures counted { T.faults self.old.store ≤ T.faults self.new.store }
    {
        let (code, state) = read_result(self.alloc, self.store.read(name))?;
        let answer = code.answer(self.alloc)?;
        self.state = state;
        Ok(answer)
    }

    // `NEXT`.
    fn next(&mut self) -> Result<Array, WantOfMemory>
        ensures ok { IfOk result (λ answer. TakesStep T.told T.faults (step_next self.old.state) self.old answer self.new) }
        ensures err { OnErr result (self.new ≡ self.old) }
    {
        match &mut self.state {
            TextState::Reading(lines) => next_line(self.alloc, lines),
            _ => Code::Refused.answer(self.alloc),
        }
    }

    // `WRITE name`.
    fn write(&mut self, name: &[Glyph]) -> Result<Array, WantOfMemory>
        ensures ok { IfOk result (λ answer. TakesStep T.told T.faults (step_write name.now self.old.state) self.old answer self.new) }
        ensures err { OnErr result (self.new ≡ self.old) }
    {
        if self.state.is_writing() {
            return Code::Refused.answer(self.alloc);
        }
        match file_name(self.alloc, name)? {
            Some(name) => self.begin_file(name),
            None => Code::Refused.answer(self.alloc),
        }
    }

    // A file of this name is written from now on.
    fn begin_file(&mut self, name: String) -> Result<Array, WantOfMemory>
        ensures ok { IfOk result (λ answer. (answer ≡ code 0) × (self.new ≡ record { store = self.old.store; state = writing (string_bytes name) [] })) }
        ensures err { OnErr result (self.new ≡ self.old) }
    {
        let answer = Code::Done.answer(self.alloc)?;
        self.state = TextState::Writing(name, Vec::new(self.alloc));
        Ok(answer)
    }

    // `PUT text`.
    fn put(&mut self, text: &[Glyph]) -> Result<Array, WantOfMemory>
        ensures ok { IfOk result (λ answer. TakesStep T.told T.faults (step_put text.now self.old.state) self.old answer self.new) }
        ensures err { OnErr result (self.new ≡ self.old) }
    {
        match &mut self.state {
            TextState::Writing(_, bytes) => put_line(self.alloc, bytes, text),
            _ => Code::Refused.answer(self.alloc),
        }
    }

    // `DONE`.
    fn done(&mut self) -> Result<Array, WantOfMemory>
        ensures ok { IfOk result (λ answer. TakesStep T.told T.faults (step_done self.old.state) self.old answer self.new) }
        ensures state { OnErr result (self.new.state ≡ self.old.state) }
        ensures files { OnErr result (KeepsFiles (T.told self.old.store) (T.told self.new.store)) }
        ensures counted { T.faults self.old.store ≤ T.faults self.new.store }
    {
        let TextState::Writing(name, bytes) = &self.state else {
            return Code::Refused.answer(self.alloc);
        };
        match self.store.replace(name.as_str(), bytes) {
            Ok(()) => {
                self.forget();
                Ok(Array::of_number(Code::Done.number()))
            }
            Err(StoreError::Failed) => Ok(Array::of_number(Code::Fault.number())),
            Err(StoreError::WantOfMemory) => Err(WantOfMemory),
        }
    }
}

// What follows from the store's answer about a file. It takes memory for the lines.
fn read_result(
    alloc: Global,
    reply: Result<Option<Bytes>, StoreError>,
) -> Result<(Code, TextState), WantOfMemory>
    ensures after { IfOk result (λ next. AfterRead (plain_read reply) (scalar (code_number next.0)) (plain_state next.1)) }
    ensures short { IfOk result (λ next. HasShortLines (plain_state next.1)) }
{
    match reply {
        Ok(Some(bytes)) => match text_lines(alloc, bytes.as_slice())? {
            Some(lines) => Ok((Code::Done, TextState::Reading(lines))),
            None => Ok((Code::NoText, TextState::Idle)),
        },
        Ok(None) => Ok((Code::Missing, TextState::Idle)),
        Err(StoreError::Failed) => Ok((Code::Fault, TextState::Idle)),
        Err(StoreError::WantOfMemory) => Err(WantOfMemory),
    }
}

// The next of the lines left, or what stands for it past the last.
fn next_line(alloc: Global, lines: &mut VecDeque<Line>) -> Result<Array, WantOfMemory>
    requires { HasShortLines (reading (map glyphs_in lines.old.items)) }
    ensures answered { IfOk result (λ answer. step_next (reading (map glyphs_in lines.old.items)) ≡ answers answer (reading (map glyphs_in lines.new.items))) }
    ensures short { HasShortLines (reading (map glyphs_in lines.new.items)) }
    ensures err { OnErr result (lines.new ≡ lines.old) }
{
    let Some(line) = lines.front() else {
        return no_line(alloc);
    };
    let answer = line_answer(alloc, line)?;
    lines.pop_front();
    Ok(answer)
}

// Adds a line to the bytes of a file, unless that would be too large.
fn put_line(alloc: Global, bytes: &mut Vec<u8>, text: &[Glyph]) -> Result<Array, WantOfMemory>
    ensures answer { IfOk result (λ answer. answer ≡ (if nat_le (length (bytes.old.items ++ line_text text.now)) most_file_bytes then code 0 else code 4)) }
    ensures bytes { OnOk result (bytes.new.items ≡ (if nat_le (length (bytes.old.items ++ line_text text.now)) most_file_bytes then bytes.old.items ++ line_text text.now else bytes.old.items)) }
    ensures err { OnErr result (bytes.new.items ≡ bytes.old.items) }
{
    let line = line_bytes(alloc, text)?;
    if line.as_slice().len() > FILE_LIMIT.saturating_sub(bytes.len()) {
        return Code::NoText.answer(alloc);
    }
    let answer = Code::Done.answer(alloc)?;
    bytes.extend_from_slice(line.as_slice())?;
    Ok(answer)
}

impl<T: TextStore> Replier for TextAux<T> {
    ghost forgets = { λ old party new. new ≡ forgotten old };

    ghost replies = { λ old party value answer new. Replies T.told T.faults old value answer new };

    ghost wants = { λ old party value new. StaysServed T.told T.faults old new };

    fn forget(&mut self, _party: u32) {
        TextAux::forget(self);
    }

    fn reply(&mut self, _party: u32, value: &Array) -> Result<Array, WantOfMemory> {
        TextAux::reply(self, value)
    }
}
