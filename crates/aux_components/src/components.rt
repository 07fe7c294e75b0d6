ghost use Rattle.std.specs.Prelude.{◌≡◌, ◌≤◌, IfOk, OnErr};
ghost use Rattle.std.specs.String.{string_bytes};
ghost use Rattle.auxiliaries.specs.Protocol.{code};
ghost use Rattle.aux_components.specs.Request.{request_of};
ghost use Rattle.aux_components.specs.Filed.{IsAskedStep, IsChangeStep, IsReplaced, KeepsFiles, Replies, StaysFiled, TakesStep, forgotten};
ghost use Rattle.aux_components.specs.Plain.{code_number};
ghost use Rattle.aux_components.specs.Protocol.{request_step, step_ask, step_next, step_take, taking};

use crate::code::Code;
use crate::due::{DueChange, what_is_due};
use crate::found::found;
use crate::request::{Request, request_of};
use crate::state::FileState;
use apl_arrays::{Array, Glyph, WantOfMemory};
use apl_io::{StoreError, TextStore};
use aux_words::file_name;
use auxiliaries::Replier;
use std::alloc::Global;
use std::marker::Model;
use std::mem;

/// Component files in a store. It is seen as the store and where its protocol stands.
#[derive(Debug, Drop)]
pub struct Components<T> {
    alloc: Global,
    store: T,
    state: FileState,
}

impl<T> Model for Components<T> {
    ghost use Rattle.aux_components.specs.Filed.{Filed};
    ghost use Rattle.aux_components.specs.Plain.{plain_state};

    ghost Value = { Filed T };

    ghost view = { λ c. record { store = c.store; state = plain_state c.state } };
}

impl<T: TextStore> Components<T> {
    ghost use Rattle.aux_components.specs.Protocol.{idle};

    /// Component files in this store, between requests.
    pub fn new(alloc: Global, store: T) -> Self
        ensures { result ≡ record { store = store; state = idle } }
    {
        Components {
            alloc,
            store,
            state: FileState::Idle,
        }
    }

    /// Begins anew, between requests.
    pub fn forget(&mut self)
        ensures { self.new ≡ forgotten self.old }
    {
        self.state = FileState::Idle;
    }

    /// Its store.
    pub fn into_store(self) -> T
        ensures { result ≡ self.store }
    {
        self.store
    }

    /// The answer to a value. An array that a file waits for may be any: the file is read, and then replaced where a change
    /// is due. Every other value is a request where it is a character vector: `COUNT name` and `GET name K` ask the store
    /// for the file once, no other request calls it. It takes memory for the answer, for the components of the file and for
    /// its bytes after a change. `WantOfMemory` leaves the protocol where it stood, and the files.
    pub fn reply(&mut self, value: &Array) -> Result<Array, WantOfMemory>
        ensures ok { IfOk result (λ answer. Replies T.told T.faults self.old value.now answer self.new) }
        ensures state { OnErr result (self.new.state ≡ self.old.state) }
        ensures files { OnErr result (KeepsFiles (T.told self.old.store) (T.told self.new.store)) }
        ensures counted { T.faults self.old.store ≤ T.faults self.new.store }
    {
        let FileState::Taking(name, number) = &self.state else {
            return self.obey(value);
        };
        let code = change(self.alloc, &mut self.store, name.as_str(), *number, value)?;
        self.state = FileState::Idle;
        Ok(code.answer())
    }

    // The answer to a value, where no file waits for an array.
    fn obey(&mut self, value: &Array) -> Result<Array, WantOfMemory>
        ensures ok { IfOk result (λ answer. TakesStep T.told T.faults (request_step (request_of value.now) self.old.state) self.old answer self.new) }
        ensures state { OnErr result (self.new.state ≡ self.old.state) }
        ensures files { OnErr result (KeepsFiles (T.told self.old.store) (T.told self.new.store)) }
        ensures counted { T.faults self.old.store ≤ T.faults self.new.store }
    {
        match request_of(value) {
            Request::Count(name) => self.ask(name, None),
            Request::Get(name, number) => self.ask(name, Some(number)),
            Request::Next => Ok(self.next()),
            Request::Append(name) => self.wait(name, None),
            Request::Replace(name, number) => self.wait(name, Some(number)),
            Request::Other => Ok(Code::Refused.answer()),
        }
    }

    // `COUNT name`, or `GET name K`.
    fn ask(&mut self, name: &[Glyph], number: Option<u32>) -> Result<Array, WantOfMemory>
        ensures ok { IfOk result (λ answer. TakesStep T.told T.faults (step_ask name.now number self.old.state) self.old answer self.new) }
        ensures state { OnErr result (self.new.state ≡ self.old.state) }
        ensures files { OnErr result (KeepsFiles (T.told self.old.store) (T.told self.new.store)) }
        ensures counted { T.faults self.old.store ≤ T.faults self.new.store }
    {
        match file_name(self.alloc, name)? {
            Some(name) => self.ask_file(name.as_str(), number),
            None => Ok(Code::Refused.answer()),
        }
    }

    // Asks the store for the file of this name.
    fn ask_file(&mut self, name: &str, number: Option<u32>) -> Result<Array, WantOfMemory>
        ensures ok { IfOk result (λ answer. IsAskedStep T.told T.faults self.old name.now number answer self.new) }
        ensures state { OnErr result (self.new.state ≡ self.old.state) }
        ensures files { OnErr result (KeepsFiles (T.told self.old.store) (T.told self.new.store)) }
        ensures counted { T.faults self.old.store ≤ T.faults self.new.store }
    {
        let (code, state) = found(self.alloc, self.store.read(name), number)?;
        self.state = state;
        Ok(code.answer())
    }

    // `NEXT`.
    fn next(&mut self) -> Array
        ensures { TakesStep T.told T.faults (step_next self.old.state) self.old result self.new }
    {
        match mem::replace(&mut self.state, FileState::Idle) {
            FileState::Holding(array) => array,
            state => {
                self.state = state;
                Code::Refused.answer()
            }
        }
    }

    // `APPEND name`, or `REPLACE name K`.
    fn wait(&mut self, name: &[Glyph], number: Option<u32>) -> Result<Array, WantOfMemory>
        ensures ok { IfOk result (λ answer. TakesStep T.told T.faults (step_take name.now number self.old.state) self.old answer self.new) }
        ensures err { OnErr result (self.new ≡ self.old) }
    {
        match file_name(self.alloc, name)? {
            Some(name) => Ok(self.wait_for(name, number)),
            None => Ok(Code::Refused.answer()),
        }
    }

    // The file of this name waits for an array.
    fn wait_for(&mut self, name: String, number: Option<u32>) -> Array
        ensures answer { result ≡ code 0 }
        ensures state { self.new ≡ record { store = self.old.store; state = taking (string_bytes name) number } }
    {
        self.state = FileState::Taking(name, number);
        Code::Done.answer()
    }
}

// Changes a file: an array comes in the place of the component of a number, or without a number goes last. It takes memory
// for the components and for the bytes.
fn change<T: TextStore>(
    alloc: Global,
    store: &mut T,
    name: &str,
    number: Option<u32>,
    value: &Array,
) -> Result<Code, WantOfMemory>
    ensures ok { IfOk result (λ done. IsChangeStep T.told T.faults store.old name.now number value.now (code (code_number done)) store.new) }
    ensures files { OnErr result (KeepsFiles (T.told store.old) (T.told store.new)) }
    ensures counted { T.faults store.old ≤ T.faults store.new }
{
    match what_is_due(alloc, store.read(name), number, value)? {
        DueChange::Refusal(code) => Ok(code),
        DueChange::Bytes(bytes) => replace(store, name, &bytes),
    }
}

// Replaces a file.
fn replace<T: TextStore>(store: &mut T, name: &str, bytes: &[u8]) -> Result<Code, WantOfMemory>
    ensures ok { IfOk result (λ done. IsReplaced T.told T.faults store.old name.now bytes.now (code (code_number done)) store.new) }
    ensures files { OnErr result (KeepsFiles (T.told store.old) (T.told store.new)) }
    ensures counted { T.faults store.old ≤ T.faults store.new }
{
    match store.replace(name, bytes) {
        Ok(()) => Ok(Code::Done),
        Err(StoreError::Failed) => Ok(Code::Fault),
        Err(StoreError::WantOfMemory) => Err(WantOfMemory),
    }
}

impl<T: TextStore> Replier for Components<T> {
    ghost forgets = { λ old party new. new ≡ forgotten old };

    ghost replies = { λ old party value answer new. Replies T.told T.faults old value answer new };

    ghost wants = { λ old party value new. StaysFiled T.told T.faults old new };

    fn forget(&mut self, _party: u32) {
        Components::forget(self);
    }

    fn reply(&mut self, _party: u32, value: &Array) -> Result<Array, WantOfMemory> {
        Components::reply(self, value)
    }
}
