// A script that the words give, as a source.
ghost use Rattle.std.specs.Prelude.{◌≡◌, ◌≤◌, IfOk, map, vec_len};
ghost use Rattle.script_loop.specs.Script.{script_of};

use crate::Source;
use crate::memory::copy_front;
use sd_names::{Failed, NoMemory};
use std::alloc::{AllocError, Global};

/// The text of lines, and how many of its bytes were read. It never fails.
#[derive(Drop)]
pub struct Script {
    text: Vec<u8>,
    at: usize,
    ghost within: { at ≤ vec_len text },
}

impl Script {
    ghost use Rattle.script_loop.specs.Memory.{script_left};

    /// A script of these lines, each with an LF behind it.
    pub fn of_lines(alloc: Global, lines: &[&str]) -> Result<Script, NoMemory>
        ensures { IfOk result (λ script. script_left script ≡ script_of (map (λ line. line.now) lines.now)) }
    {
        match text_of(alloc, lines) {
            Ok(text) => Ok(Script { text, at: 0 }),
            Err(_) => Err(NoMemory),
        }
    }
}

impl Source for Script {
    ghost use Rattle.std.specs.Prelude.{Some};
    ghost use Rattle.script_loop.specs.Memory.{script_left};

    ghost left = { λ s. Some (script_left s) };

    ghost faults = { λ s. 0 };

    fn read(&mut self, into: &mut [u8]) -> Result<usize, Failed> {
        let most = into.len();
        let count = copy_front(&self.text[self.at..], into, most);
        self.at += count;
        Ok(count)
    }
}

/// The text of lines.
fn text_of(alloc: Global, lines: &[&str]) -> Result<Vec<u8>, AllocError>
    ensures { IfOk result (λ text. text.items ≡ script_of (map (λ line. line.now) lines.now)) }
{
    let mut text = Vec::new(alloc);
    for line in lines {
        text.extend_from_slice(line.as_bytes())?;
        text.push(b'\n')?;
    }
    Ok(text)
}
