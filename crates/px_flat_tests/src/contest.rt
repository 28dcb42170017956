// A plan, and the claims of its nodes.
ghost use Rattle.std.specs.Prelude.{◌≡◌, ◌<◌, length, IfOk};
ghost use Rattle.px_flat.specs.Flat.{plan_of};

use crate::tables::tables;
use anyhow::bail;
use px_assign::Claims;
use px_flat::Flat;
use px_value::Path;
use std::alloc::Global;

/// A plan's tables, and the claims of its nodes.
#[derive(Drop)]
pub(crate) struct Contest {
    flat: Flat,
    claims: Claims,
    ghost sized: { length claims.variables ≡ length (plan_of flat) },
}

impl Contest {
    /// The plan that a text spells. None of its nodes would start, and none is at work.
    pub(crate) fn of(alloc: Global, text: &str) -> anyhow::Result<Contest> {
        let flat = tables(alloc, text)?;
        match Claims::new(alloc, &flat) {
            Ok(claims) => Ok(Contest { flat, claims }),
            Err(fault) => {
                drop(flat);
                Err(fault.into())
            }
        }
    }

    /// Makes the calls of the lines. The answer is the lines as they have to be.
    pub(crate) fn answered(&mut self, alloc: Global, lines: &str) -> anyhow::Result<String> {
        let mut answers = String::new(alloc);
        for line in lines.lines() {
            if !answers.is_empty() {
                answers.push_str("\n")?;
            }
            answers.push_str(self.answer(alloc, line)?.as_str())?;
        }
        Ok(answers)
    }

    // Makes the call of a line. The answer is the line as it has to be, with the nodes that go in preorder where it asks
    // for them.
    fn answer(&mut self, alloc: Global, line: &str) -> anyhow::Result<String> {
        if line == "goes" || line.starts_with("goes ") {
            return self.winners(alloc);
        }
        self.call(alloc, line)?;
        Ok(String::from_str(alloc, line)?)
    }

    fn call(&mut self, alloc: Global, line: &str) -> anyhow::Result<()> {
        let (word, path) = line.split_once(' ').unwrap_or((line, ""));
        match word {
            "want" => self.want(alloc, path, true),
            "stay" => self.want(alloc, path, false),
            "hold" => self.hold(alloc, path, true),
            "leave" => self.hold(alloc, path, false),
            _ => bail!("no call: {line}"),
        }
    }

    fn want(&mut self, alloc: Global, path: &str, wants: bool) -> anyhow::Result<()> {
        let node = node_at(alloc, &self.flat, path)?;
        self.claims.want(node, wants);
        Ok(())
    }

    fn hold(&mut self, alloc: Global, path: &str, holds: bool) -> anyhow::Result<()> {
        let node = node_at(alloc, &self.flat, path)?;
        self.claims.hold(node, holds);
        Ok(())
    }

    // A line with the nodes that go.
    fn winners(&self, alloc: Global) -> anyhow::Result<String> {
        let winners = self.claims.winners(alloc)?;
        let mut line = String::from_str(alloc, "goes")?;
        for node in 0..self.flat.nodes() {
            if winners.contains(&node) {
                line.push_str(" ")?;
                line.push_str(self.flat.row(node).path.as_str())?;
            }
        }
        Ok(line)
    }
}

/// The number of the node at a path.
pub(crate) fn node_at(alloc: Global, flat: &Flat, path: &str) -> anyhow::Result<u32>
    ensures { IfOk result (λ node. node < length (plan_of flat.now)) }
{
    let Some(node) = flat.number_of(&Path::new(alloc, path)?) else {
        bail!("no node: {path}");
    };
    Ok(node)
}
