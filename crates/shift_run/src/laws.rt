//! A law of legal logs. It computes nothing: it is the contract of a function without result.
ghost use Rattle.std.specs.Prelude.{◌≡◌, length, map, All, ◌≤◌};
ghost use Rattle.session_file.specs.declared.session.Session.{Session};
ghost use Rattle.shift_model.specs.Logs.{Legal, named_act};
ghost use Rattle.version_journal.specs.declared.run_log.RunLog.{RunLog};
ghost use Rattle.shift_model.specs.Plans.{plain_order};

/// Where each shift has at most one painter, the acts of every legal log come in plain order.
pub fn one_painter_fixes_the_order()
    ensures { (session : Session) (log : RunLog) → Legal session log → All (λ plan. length plan.painters ≤ 1) session.shifts
        → map (named_act session) log.entries ≡ plain_order session }
{}
