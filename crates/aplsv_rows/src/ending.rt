use crate::run::ProgramEnd;
use anyhow::{Context, Result};
use aplsv_top::Status;
use std::alloc::{AllocError, Global};

/// The exit status of an ending. An ending is named by the text on standard error behind the program's name.
pub fn code_of(ending: &str) -> u8 {
    match ending {
        "done" => 0,
        "usage" => 1,
        "read fault" => 3,
        "write fault" => 4,
        "input too long" => 5,
        "out of memory" => 6,
        "not a run" => 7,
        "no entry" => 8,
        _ => 2,
    }
}

/// The ending of a run, or its status and what it told where these two do not belong together.
pub fn ending_of(alloc: Global, ended: &ProgramEnd) -> Result<String> {
    let (code, told) = (ended.code, ended.told.as_str());
    let ending = if told.is_empty() {
        "done"
    } else {
        told.strip_prefix("aplsv: ")
            .context("the program is not named")?
    };
    if code_of(ending) != code {
        return Ok(format!(in alloc; "status {code} `{told}`")?);
    }
    Ok(String::from_str(alloc, ending)?)
}

// The text on standard error of an ending; none where all is done.
fn told_of(alloc: Global, ending: &str) -> Result<String, AllocError> {
    if ending == "done" {
        return Ok(String::new(alloc));
    }
    format!(in alloc; "aplsv: {ending}")
}

/// Whether want of memory, which no run here ends with, is told otherwise than it is to be. One line is printed.
pub fn memory_differs(rt: &HostRuntime) -> Result<bool> {
    let (ending, status) = ("out of memory", Status::WantOfMemory);
    let (code, told) = (status.code(), status.to_string(rt.alloc())?);
    let wanted = told_of(rt.alloc(), ending)?;
    if code == code_of(ending) && told.as_str() == wanted.as_str() {
        println!(rt; "{ending}: as wanted")?;
        return Ok(false);
    }
    println!(rt; "{ending}: status {code} `{told}`")?;
    Ok(true)
}
