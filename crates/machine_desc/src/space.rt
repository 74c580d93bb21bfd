//! The rules of GPE blocks, workers, regions and fields.
ghost use Rattle.std.specs.Prelude.{◌≡◌, Bool, List, Option, None, Some, MatchResult, slice_get};
ghost use Rattle.std.specs.List.{list_any};
ghost use Rattle.acpi_regs.specs.GeometryParts.{blocks_of};
ghost use Rattle.machine_desc.specs.Machine.{len_of};
ghost use Rattle.machine_desc.specs.Rules as rules;

use crate::items_rules::{ItemRules, at_item, broken, items_fault};
use crate::{BadMachine, FieldPart, Part, RegionPart, Rule, Spot};
use acpi_regs::GpeGeometry;
use field_units::RegionKind;

/// The number that the blocks of a description of this version may end at.
fn most_gpes(version: u8) -> u16
    ensures { result ≡ rules.most_gpes version }
{
    if version == 1 { 128 } else { 256 }
}

/// The blocks of these lengths, or the first rule that they break.
#[tactic(auto, unfolding(crate::specs::Rules::gpe_fault))]
pub fn geometry_of(version: u8, gpe0: u16, base1: u16, gpe1: u16) -> Result<GpeGeometry, BadMachine>
    ensures { MatchResult result
        (λ g. (blocks_of g ≡ record { gpe0 = gpe0; base1 = base1; gpe1 = gpe1 })
        × (rules.gpe_fault version (record { gpe0 = gpe0; base1 = base1; gpe1 = gpe1 }) ≡ None))
        (λ bad. rules.gpe_fault version (record { gpe0 = gpe0; base1 = base1; gpe1 = gpe1 }) ≡ Some bad) }
{
    let Ok(geometry) = GpeGeometry::new(gpe0, base1, gpe1) else {
        return Err(at_item(
            Part::Gpe,
            0,
            Spot {
                rule: Rule::BadGeometry,
                op: 0,
            },
        ));
    };
    if geometry.end() > most_gpes(version) {
        return Err(at_item(
            Part::Gpe,
            0,
            Spot {
                rule: Rule::TooManyEvents,
                op: 0,
            },
        ));
    }
    Ok(geometry)
}

/// The first rule that the number of workers breaks.
#[tactic(auto, unfolding(crate::specs::Rules::workers_fault))]
pub fn workers_fault(workers: u8) -> Option<BadMachine>
    ensures { result ≡ rules.workers_fault workers }
{
    if workers < 1 || workers > 4 {
        return Some(at_item(
            Part::Workers,
            0,
            Spot {
                rule: Rule::BadWorkers,
                op: 0,
            },
        ));
    }
    None
}

fn is_controllers(region: &RegionPart) -> bool
    ensures { result ≡ rules.is_controllers region.now }
{
    matches!(region.kind, RegionKind::Controller)
}

fn any_controllers(regions: &[RegionPart]) -> bool
    ensures { result ≡ list_any rules.is_controllers regions.now }
{
    regions.iter().any(is_controllers)
}

/// The rules of a region, where there is a controller or not.
#[derive(Clone, Copy)]
struct RegionRules {
    has_controller: bool,
}

impl ItemRules<RegionPart> for RegionRules {
    ghost use Rattle.machine_desc.specs.Rules as rules;

    ghost fault = { λ s before r. rules.region_fault s.has_controller before r };

    fn fault(&self, before: &[RegionPart], region: &RegionPart) -> Option<Spot> {
        let controllers = is_controllers(region);
        if region.len == 0 {
            return broken(Rule::BadRegion);
        }
        if !controllers && region.len > 4096 {
            return broken(Rule::BadRegion);
        }
        if controllers && region.len != 256 {
            return broken(Rule::BadRegion);
        }
        if region.bytes.as_slice().len() > usize::from(region.len) {
            return broken(Rule::BadRegion);
        }
        if controllers && any_controllers(before) {
            return broken(Rule::BadRegion);
        }
        if controllers && !self.has_controller {
            return broken(Rule::BadRegion);
        }
        None
    }
}

/// The first rule that the regions break.
#[tactic(auto, unfolding(crate::specs::Rules::regions_fault))]
pub fn regions_fault(has_controller: bool, regions: &[RegionPart]) -> Option<BadMachine>
    ensures { result ≡ rules.regions_fault has_controller regions.now }
{
    items_fault(Part::Region, 16, &RegionRules { has_controller }, regions)
}

/// How many cells the region at an index has; 0 where there is no such region.
fn len_of(regions: &[RegionPart], index: u8) -> u16
    ensures { result ≡ len_of (slice_get regions.now index) }
{
    match regions.get(usize::from(index)) {
        Some(region) => region.len,
        None => 0,
    }
}

/// The rules of a field of one of these regions.
#[derive(Clone, Copy)]
struct FieldRules<'a> {
    regions: &'a [RegionPart],
}

impl ItemRules<FieldPart> for FieldRules<'_> {
    ghost use Rattle.machine_desc.specs.Rules as rules;

    ghost fault = { λ s before f. rules.field_rule s.regions.now before f };

    fn fault(&self, _: &[FieldPart], field: &FieldPart) -> Option<Spot> {
        if usize::from(field.region) >= self.regions.len() {
            return broken(Rule::UnknownRegion);
        }
        if field.width < 1 || field.width > 64 {
            return broken(Rule::BadWidth);
        }
        let len = u64::from(len_of(self.regions, field.region));
        if u64::from(field.bit) + u64::from(field.width) > 8 * len {
            return broken(Rule::OutsideRegion);
        }
        None
    }
}

/// The first rule that the fields break.
#[tactic(auto, unfolding(crate::specs::Rules::fields_fault))]
pub fn fields_fault(regions: &[RegionPart], fields: &[FieldPart]) -> Option<BadMachine>
    ensures { result ≡ rules.fields_fault regions.now fields.now }
{
    items_fault(Part::Field, 256, &FieldRules { regions }, fields)
}
