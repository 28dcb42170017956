// The script of `soak`.
ghost use Rattle.std.specs.Prelude.{◌≡◌, ◌≤◌, [], IfOk, codes};
ghost use Rattle.px_script.specs.Fit.{IsFitScript};
ghost use Rattle.px_script.specs.Soak.{soak_line, soak_lines, soak_threads};

use crate::line::{Line, What};
use crate::script::Script;
use crate::todo::Todo;
use px_event::{Event, Names};
use px_value::{Name, NameFault, NoMemory, Value};
use std::alloc::{AllocError, Global};

/// The script of `soak`: `count` lines on thread 1, from 1 to 100,000. Line k reports of the state `level` the number
/// 100 k + ((seed + 37 k) mod 100), so that each report is greater than the one before. It names no thread.
pub fn soak_script(alloc: Global, count: u32, seed: u32) -> Result<Script, NoMemory>
    requires least { 1 ≤ count }
    requires most { count ≤ 100000 }
    ensures lines { IfOk result (λ script. script.threads ≡ soak_threads count seed) }
    ensures names { IfOk result (λ script. script.names ≡ []) }
    ensures fit { IfOk result (λ script. IsFitScript script) }
{
    let lines = soak_lines(alloc, count, seed)?;
    let threads = vec![in alloc;
        Todo {
            thread: 1,
            lines: lines.into()
        },
    ]?;
    Ok(Script {
        threads: threads.into(),
        names: Names::new(alloc),
    })
}

fn soak_lines(alloc: Global, count: u32, seed: u32) -> Result<Vec<Line>, NoMemory>
    requires { count ≤ 100000 }
    ensures { IfOk result (λ lines. lines.items ≡ soak_lines count seed) }
{
    let name = level(alloc)?;
    let mut lines = Vec::new(alloc);
    for before in 0..count {
        let line = soak_line(alloc, &name, before + 1, seed)?;
        lines.push(line)?;
    }
    Ok(lines)
}

fn soak_line(alloc: Global, name: &Name, number: u32, seed: u32) -> Result<Line, NoMemory>
    requires name { name.now ≡ codes "level" }
    requires most { number ≤ 100000 }
    ensures { IfOk result (λ line. line ≡ soak_line seed number) }
{
    let k = u64::from(number);
    let level = 100 * k + (u64::from(seed) + 37 * k) % 100;
    let name = name.copy(alloc)?;
    Ok(Line {
        number,
        what: What::Post(Event::Report {
            name,
            args: Vec::new(alloc).into(),
            value: Value::Integer(level as i32),
        }),
    })
}

// The state that is reported.
fn level(alloc: Global) -> Result<Name, NoMemory>
    ensures { IfOk result (λ name. name ≡ codes "level") }
{
    match Name::new(alloc, "level") {
        Ok(name) => Ok(name),
        Err(NameFault::NoMemory) => Err(AllocError),
        Err(NameFault::NotAName) => unreachable!(),
    }
}
