// What detect children say.
use crate::documents::id_and_version;
use crate::taking::table;
use cnb_world::{List, Probed, Reply};
use row_files::{Answer, Fields, text_of};

/// Adds what the detect children of a scenario say.
pub(crate) fn push_replies(answer: &mut Answer, replies: &mut List<Reply>, row: Fields) {
    if let Some(plans) = table(row, "plans") {
        for (name, plan) in plans {
            push_reply(answer, replies, name, "0", text_of(plan));
        }
    }
    if let Some(all) = table(row, "replies") {
        for (name, reply) in all {
            push_short(answer, replies, name, text_of(reply));
        }
    }
}

// The reply of a buildpack as `0 +p -q | +r`: its code or `none`, and its Build Plan.
fn push_short(answer: &mut Answer, replies: &mut List<Reply>, name: &str, reply: &str) {
    let (code, options) = reply.split_once(' ').unwrap_or((reply, ""));
    let mut plan = Answer::new(answer.alloc);
    put_plan(&mut plan, options);
    let plan = answer.taken(plan);
    push_reply(answer, replies, name, code, &plan);
}

fn push_reply(answer: &mut Answer, replies: &mut List<Reply>, name: &str, code: &str, plan: &str) {
    let (id, version) = id_and_version(name);
    let probed = Probed {
        code: exit_code(answer, code),
        plan: answer.bytes(plan.as_bytes()),
    };
    let reply = Reply {
        id: answer.text(id),
        version: answer.text(version),
        probed,
    };
    answer.done(replies.push(reply));
}

fn exit_code(answer: &mut Answer, word: &str) -> Option<i32> {
    if word == "none" {
        return None;
    }
    match word.parse::<i32>() {
        Ok(code) => Some(code),
        Err(_) => {
            answer.wrong("no exit code:", word);
            None
        }
    }
}

// The document of a Build Plan as `+p -q | +r`: what it provides and requires, alternatives between bars.
fn put_plan(plan: &mut Answer, options: &str) {
    for (place, option) in options.split('|').enumerate() {
        if place > 0 {
            plan.put("[[or]]\n");
        }
        let table = if place == 0 { "" } else { "or." };
        for word in option.split_whitespace() {
            put_name(plan, table, word);
        }
    }
}

fn put_name(plan: &mut Answer, table: &str, word: &str) {
    if let Some(name) = word.strip_prefix('+') {
        plan.put_all(&["[[", table, "provides]]\nname = \"", name, "\"\n"]);
    } else if let Some(name) = word.strip_prefix('-') {
        plan.put_all(&["[[", table, "requires]]\nname = \"", name, "\"\n"]);
    } else {
        plan.wrong("neither `+` nor `-`:", word);
    }
}
