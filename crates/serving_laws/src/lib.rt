//! What sessions and the serving of connections come to, as laws: functions whose bodies are empty.
#![tactic(auto)]

ghost use Rattle.std.specs.Prelude.{List, Option, length, ℕ};
ghost use Rattle.desks.specs.declared.desk.DeskFault.{DeskFault};
ghost use Rattle.net_links.specs.LinkViews.{LinkView};
ghost use Rattle.store_model.specs.Keys.{Keys};
ghost use Rattle.store_model.specs.Store.{StoreView};
ghost use Rattle.sessions.specs.SessionEnds.{HasSession};
ghost use Rattle.sessions.specs.declared.conversing.SessionEnd.{SessionEnd};
ghost use Rattle.sessions.specs.declared.ends.Why.{Why};
ghost use Rattle.store_server.specs.Servings.{HasServedAll};
ghost use Rattle.serving_laws.specs.ServedHistories.{IsServedHistory, store_with};
ghost use Rattle.serving_laws.specs.WholeSessions.{IsGivenWhole, IsWholeEnd};

use desks::Desk;
use net_links::Clock;

/// Connections that were served one after the other, at a store that knew none: what each asked, with the replies, and
/// that it left, is one legal history of their clients, and it leads to the store that is left, as long as memory was
/// never wanting in a command. Each reply can be written, as far as its integers are of 64 bits.
pub fn serving_is_a_history<C: Clock>()
    ensures { (clock : C) (turns : ℕ) (m : Keys) (left : StoreView) (closed closed2 : Option (List LinkView)) (ends : List SessionEnd)
        → HasServedAll (C.gives clock) turns 1 (store_with m) left closed closed2 ends → IsServedHistory (C.gives clock) m closed closed2 ends left }
{}

/// A session over a link that doesn't fail, which gives whole commands in fewer receives than there are turns, and then
/// ends, ends there after it asked all of them, unless its desk's history is full or closed or memory is wanting.
pub fn whole_sessions_end<D: Desk, C: Clock>()
    ensures { (clock : C) (fault : Option DeskFault) (first now : D) (old new : LinkView) (turns count : ℕ) (why : Why)
        → (s : HasSession D.goes (C.gives clock) D.shared fault first now old new turns count why) → (g : IsGivenWhole old new s.stream s.receives turns) → IsWholeEnd (length g.values) count why }
{}
