// What the children of the buildpacks answer, by the digits of a number.
ghost use Rattle.std.specs.Prelude.{◌≡◌, Some, ◌<◌, ◌/◌, ◌%◌, ◌++◌, IfOk, OnOk, string_bytes};
ghost use Rattle.cnb_drill.specs.Replies.{reply_by, digit_code, digit_plan, column_replies, drill_replies};

use crate::keys::{component_key, tail_key};
use cnb_toml::Key;
use cnb_world::{Bytes, List, Memory, Probed, Reply, Text};
use std::alloc::Global;

const TAIL_PLAN: &str =
    "[[requires]]\nname = \"y0\"\n[[requires]]\nname = \"y1\"\n[[requires]]\nname = \"y2\"\n[[requires]]\nname = \"y3\"\n";

fn reply(alloc: Global, key: &Key, code: Option<i32>, plan: &str) -> Result<Reply, Memory>
    ensures { IfOk result (λ reply. reply ≡ reply_by key.now code plan.now) }
{
    Ok(Reply {
        id: Text::of(alloc, key.id.as_str())?,
        version: Text::of(alloc, key.version.as_str())?,
        probed: Probed {
            code,
            plan: Bytes::of(alloc, plan.as_bytes())?,
        },
    })
}

/// The wanted digit passes, smaller ones fail, larger ones end with an error.
fn digit_code(wanted: u8, digit: u8) -> Option<i32>
    ensures { result ≡ Some (digit_code wanted digit) }
{
    if digit == wanted {
        Some(0)
    } else if digit < wanted {
        Some(100)
    } else {
        Some(1)
    }
}

/// The plan of a column's components: each provides `x<column>`, or `y<column>`.
fn digit_plan(alloc: Global, column: u8) -> Result<String, Memory>
    requires { column < 4 }
    ensures { IfOk result (λ plan. string_bytes plan ≡ digit_plan column) }
{
    let plan = format!(in alloc;
        "[[provides]]\nname = \"x{column}\"\n[[or]]\n[[or.provides]]\nname = \"y{column}\"\n"
    )?;
    Ok(plan)
}

fn add_column(
    alloc: Global,
    replies: &mut List<Reply>,
    column: u8,
    wanted: u8,
) -> Result<(), Memory>
    requires column { column < 4 }
    ensures { OnOk result (replies.new ≡ replies.old ++ column_replies column wanted) }
{
    let plan = digit_plan(alloc, column)?;
    for digit in 0..8u8 {
        let key = component_key(alloc, column, digit)?;
        let code = digit_code(wanted, digit);
        let reply = reply(alloc, &key, code, plan.as_str())?;
        replies.push(reply)?;
    }
    Ok(())
}

/// The digit of this weight, to the base 8.
fn digit(number: u32, weight: u32) -> u8
    requires { 0 < weight }
    ensures { result ≡ number / weight % 8 }
{
    (number / weight % 8) as u8
}

/// The replies by which the group of this number is the first that passes.
pub(crate) fn replies(alloc: Global, number: u32) -> Result<List<Reply>, Memory>
    ensures { IfOk result (λ replies. replies ≡ drill_replies number) }
{
    let first = digit(number, 512);
    let second = digit(number, 64);
    let third = digit(number, 8);
    let fourth = digit(number, 1);
    let mut replies = List::new(alloc);
    add_column(alloc, &mut replies, 0, first)?;
    add_column(alloc, &mut replies, 1, second)?;
    add_column(alloc, &mut replies, 2, third)?;
    add_column(alloc, &mut replies, 3, fourth)?;
    let key = tail_key(alloc)?;
    let tail = reply(alloc, &key, Some(0), TAIL_PLAN)?;
    replies.push(tail)?;
    Ok(replies)
}
