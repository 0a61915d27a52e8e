//! That a text tells its report, as a law: the function does nothing and carries it.
ghost use Rattle.std.specs.Prelude.{List, ℕ};
ghost use Rattle.session_known.specs.declared.script.Script.{Script};
ghost use Rattle.report_lines.specs.Text.{TextsTellReportsApart};

/// A text is that of one report of the script's form at most.
pub fn texts_tell_reports_apart()
    ensures { (script : Script) (table : List (List ℕ)) → TextsTellReportsApart script table }
{}
