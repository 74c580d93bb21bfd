//! The names that the program says of a status, and of what it carries.
ghost use Rattle.std.specs.Prelude.{◌≡◌, ◌≤◌, length};
ghost use Rattle.acpi_commands.specs.Ending.{name_of, part_name, rule_name};

use crate::status::Status;
use machine_desc::{Part, Rule};

/// The name of a status.
pub fn name_of(status: &Status) -> &'static str
    ensures { result.now ≡ name_of status.now }
{
    match status {
        Status::Ok => "Ok",
        Status::Usage => "Usage",
        Status::NotJson => "NotJson",
        Status::BadShape(_) => "BadShape",
        Status::BadMachine(_) => "BadMachine",
        Status::TooLong(_) => "TooLong",
        Status::ReadFault => "ReadFault",
        Status::WriteFault => "WriteFault",
        Status::Memory => "Memory",
        Status::TooLarge => "TooLarge",
        Status::Illegal { .. } => "Illegal",
        Status::Unfinished { .. } => "Unfinished",
        Status::BadLog(_) => "BadLog",
    }
}

/// The name of a rule of machines.
pub fn rule_name(rule: Rule) -> &'static str
    ensures name { result.now ≡ rule_name rule }
    ensures len { length result.now ≤ 13 }
{
    match rule {
        Rule::BadGeometry => "BadGeometry",
        Rule::TooManyEvents => "TooManyEvents",
        Rule::BadWorkers => "BadWorkers",
        Rule::TooMany => "TooMany",
        Rule::BadRegion => "BadRegion",
        Rule::UnknownRegion => "UnknownRegion",
        Rule::BadWidth => "BadWidth",
        Rule::OutsideRegion => "OutsideRegion",
        Rule::UnknownEvent => "UnknownEvent",
        Rule::TakenEvent => "TakenEvent",
        Rule::BadRefs => "BadRefs",
        Rule::TakenCode => "TakenCode",
        Rule::LongList => "LongList",
        Rule::UnknownActor => "UnknownActor",
        Rule::LongScript => "LongScript",
        Rule::Unbalanced => "Unbalanced",
        Rule::UnknownField => "UnknownField",
        Rule::BadSkip => "BadSkip",
        Rule::NotAllowed => "NotAllowed",
    }
}

/// The name of a part of a description.
pub fn part_name(part: Part) -> &'static str
    ensures name { result.now ≡ part_name part }
    ensures len { length result.now ≤ 10 }
{
    match part {
        Part::Gpe => "Gpe",
        Part::Workers => "Workers",
        Part::Region => "Region",
        Part::Field => "Field",
        Part::Event => "Event",
        Part::Controller => "Controller",
        Part::Query => "Query",
        Part::Firmware => "Firmware",
        Part::Device => "Device",
        Part::Schedule => "Schedule",
    }
}
