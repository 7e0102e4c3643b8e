//! How replies are printed.
ghost use Rattle.std.specs.Prelude.{◌≡◌, string_bytes, IfOk};
ghost use Rattle.plan.specs.Layouts.{table_at};
ghost use Rattle.schedule.specs.Codes.{reply_of};
ghost use Rattle.schedule_lines.specs.Replies.{printed_hit, printed_refusal, printed_reply, printed_settle};

use model::lengths::Lengths;
use plan::plan::Plan;
use row::refused::Refused;
use row::row::Row;
use schedule::event::Reply;
use std::alloc::{AllocError, Global};

/// A reply as it is printed: a line, and for a hit one more for each row. Errors: memory only.
/// Cost: the length of the text.
pub fn text_of(alloc: Global, plan: &Plan, reply: &Reply) -> Result<String, AllocError>
    ensures { IfOk result (λ text. string_bytes text
        ≡ printed_reply plan.now (reply_of reply.now)) }
{
    match reply {
        Reply::Accepted {
            table,
            shard,
            index,
        } => {
            let name = table_name(plan, *table);
            format!(in alloc; "accepted {name}.{shard} {index}\n")
        }
        Reply::Refused(refused) => refusal(alloc, *refused),
        Reply::Hit { rows, cut } => rows_text(alloc, rows, cut),
        Reply::Miss => String::from_str(alloc, "miss\n"),
        Reply::Wanted => String::from_str(alloc, "wanted\n"),
        Reply::FenceSent => String::from_str(alloc, "fence sent\n"),
        Reply::Asked(requests) => format!(in alloc; "asked {requests}\n"),
        Reply::Delivered => String::from_str(alloc, "delivered\n"),
        Reply::Idle => String::from_str(alloc, "idle\n"),
        Reply::Fenced(session) => format!(in alloc; "fenced {session}\n"),
        Reply::Evicted => String::from_str(alloc, "evicted\n"),
        Reply::Stopped => String::from_str(alloc, "stopped\n"),
        Reply::Settled(sessions) => settle_text(alloc, "settled", sessions),
        Reply::Unsettled(sessions) => settle_text(alloc, "unsettled", sessions),
    }
}

/// The table's name, and nothing where there is no table.
fn table_name(plan: &Plan, table: usize) -> &str
    ensures { result.now ≡ (table_at plan.now table).name }
{
    if table < plan.tables() {
        plan.table(table).name()
    } else {
        ""
    }
}

fn refusal(alloc: Global, refused: Refused) -> Result<String, AllocError>
    ensures { IfOk result (λ text. string_bytes text ≡ printed_refusal refused) }
{
    let (number, name) = (refused.number(), refused.name());
    format!(in alloc; "refused {number} {name}\n")
}

/// A line with the number of rows and the cut, and a line for each row.
fn rows_text(alloc: Global, rows: &[Row], cut: &Lengths) -> Result<String, AllocError>
    ensures { IfOk result (λ text. string_bytes text ≡ printed_hit rows.now cut.now) }
{
    let count = rows.len();
    let mut text = format!(in alloc; "rows {count} cut {cut}\n")?;
    for row in rows {
        writeln!(text, "{row}")?;
    }
    Ok(text)
}

/// A line with how it went and the sessions whose fences have ended.
fn settle_text(alloc: Global, how: &str, sessions: &[usize]) -> Result<String, AllocError>
    ensures { IfOk result (λ text. string_bytes text ≡ printed_settle how.now sessions.now) }
{
    let mut text = String::from_str(alloc, how)?;
    for session in sessions {
        write!(text, " fenced {session}")?;
    }
    text.push('\n')?;
    Ok(text)
}
