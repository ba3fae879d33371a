//! What the publish lines of schedules and of scripts send, as laws whose functions have empty bodies.
#![tactic(auto)]

ghost use Rattle.publish_laws.specs.Laws.{PlainLinesAgree, PublishLinesSendTasks, TimedLinesSendTasks};

/// What a publish line sends is the text of an envelope, and the task that is read from it is that of the line: its name
/// and its arguments, without keywords, never retried and at no moment, under the text of its tag as its id.
pub fn publish_lines_send_tasks()
    ensures { PublishLinesSendTasks }
{}

/// A publish line of a script before which no moment stands sends what the same line of a schedule sends, by the same tag:
/// so what is read from it is that line's task too.
pub fn plain_lines_agree()
    ensures { PlainLinesAgree }
{}

/// What a publish line of a script sends is the text of an envelope, and the task that is read from it is that of the line,
/// with the moments that stand before the line, where they lie in the years 1 to 9999, and no others.
pub fn timed_lines_send_tasks()
    ensures { TimedLinesSendTasks }
{}
