ghost use Rattle.std.specs.Prelude.{◌≡◌, ◌≤◌, length};
ghost use Rattle.run_checker.specs.Words.{rule_text};

use machine_history::LogRule;

/// The name of a rule.
pub fn rule_name(rule: LogRule) -> &'static str
    ensures text { result.now ≡ rule_text rule }
    ensures len { length result.now ≤ 6 }
{
    match rule {
        LogRule::Actor => "Actor",
        LogRule::Next => "Next",
        LogRule::Seeker => "Seeker",
        LogRule::Busy => "Busy",
        LogRule::Wake => "Wake",
        LogRule::Owner => "Owner",
        LogRule::Value => "Value",
        LogRule::Begin => "Begin",
        LogRule::Wire => "Wire",
        LogRule::Due => "Due",
        LogRule::Latch => "Latch",
        LogRule::Status => "Status",
        LogRule::Job => "Job",
        LogRule::Rest => "Rest",
    }
}
