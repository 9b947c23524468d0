// A batch's session, lent for each cut.
#![tactic(auto)]

ghost use Rattle.std.specs.Prelude.{◌≡◌, length};
ghost use Rattle.session.specs.Showing.{SessionInBounds};
ghost use Rattle.session_cutting.specs.Cutting.{answer_as, after_as, after_cut, list_after};

use refusals::Refusal;
use session::Session;
use session_cuts::Cut;
use session_cutting::AfterCut;

// The panel holds one session for a whole batch, and each cut changes that session.
pub fn cut(session: &mut Session, cut: Cut, changed: &mut [u16]) -> Result<usize, Refusal>
    requires { SessionInBounds session.old }
    ensures session_after { session.new ≡ (after_cut session.old cut (length changed.old)).session }
    ensures changed_after { changed.new ≡ list_after session.old (after_cut session.old cut (length changed.old)) changed.old }
    ensures value { answer_as result ≡ (after_cut session.old cut (length changed.old)).answer }
{
    let out = session_cutting::cut(*session, cut, changed);
    *session = out.session;
    out.answer
}

// The same for callers that hold the session by value.
pub fn cut_held(session: Session, cut: Cut, changed: &mut [u16]) -> AfterCut
    requires { SessionInBounds session }
    ensures value { after_as result ≡ after_cut session cut (length changed.old) }
    ensures changed_after { changed.new ≡ list_after session (after_as result) changed.old }
{
    let mut held = session;
    let answer = self::cut(&mut held, cut, changed);
    AfterCut {
        answer,
        session: held,
    }
}
