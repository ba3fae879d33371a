//! Laws of tasks. Each body is empty: the clause is the law.
#![tactic(auto)]

ghost use Rattle.task_laws.specs.Laws.{AgainChanges, AgainIsRead, DraftsComeBack, FaultsApart, ReadsTasks};

/// Reading gives a task exactly where the envelope carries it, member by member, in both versions.
pub fn tasks_read()
    ensures { ReadsTasks }
{}

/// A task that was drafted and sealed is read as the same task, in both versions.
pub fn drafts_come_back()
    ensures { DraftsComeBack }
{}

/// A task that is sent again has one retry more, another moment and another tag, and no mark; every other member of its
/// headers or its content, by the version, of the tree, the properties and the delivery_info is as before.
pub fn again_changes()
    ensures { AgainChanges }
{}

/// What was sent again is read as the task with one retry more and its new moment, under its new tag, in both versions.
pub fn again_is_read()
    ensures { AgainIsRead }
{}

/// Reading a task is never refused as too long, and sending it again is refused for nothing else.
pub fn faults_apart()
    ensures { FaultsApart }
{}
