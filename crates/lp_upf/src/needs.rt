//! The options that a command must have.
ghost use Rattle.std.specs.Prelude.{◌≡◌, ◌||◌, not, ℕ, List, map, true};
ghost use Rattle.lp_model.specs.Agreement.{numbers_below};
ghost use Rattle.lp_spec_upf.specs.Commands.{Part, all_faults, is_missing, lacks_none};
ghost use Rattle.lp_upf.specs.Faults.{faults_view, first_numbers, judged};
ghost use Rattle.lp_upf.specs.Options.{options_view, read_of};
ghost use Rattle.lp_upf.specs.Tables.{need_of, rule_view};

use crate::fault::{CommandFault, Faults};
use crate::options::{Options, has_option};
use crate::tables::{Need, Rule};
use lp_model::CommandOption;
use lp_text::Place;

/// Whether an option is not among those that a command has, and has to be.
fn is_missing(options: &[CommandOption], rule: Rule) -> bool
    ensures { result ≡ is_missing (map (λ o. o.word) options.now) rule.word (need_of rule.need) }
{
    match rule.need {
        Need::Free => false,
        Need::Always => !has_option(options, rule.word),
        Need::Unless(other) => !(has_option(options, rule.word) || has_option(options, other)),
    }
}

/// Whether a command has all options that it must have.
fn lacks_none(options: &[CommandOption], rules: &[Rule]) -> bool
    ensures { result ≡ lacks_none (map rule_view rules.now) (map (λ o. o.word) options.now) }
{
    for rule in rules {
        if is_missing(options, *rule) {
            return false;
        }
    }
    true
}

/// Whether nothing is missing in a command, as far as it was read.
fn is_complete(rest: &Options, rules: &[Rule]) -> bool
    ensures { result ≡ (not rest.now.whole || lacks_none (map rule_view rules.now) (map (λ o. o.word) rest.now.options)) }
{
    !rest.whole || lacks_none(rest.options.as_slice(), rules)
}

/// The faults of a command at a place, with that of an option that it lacks.
pub(crate) fn all_faults(place: Place, rules: &[Rule], rest: &Options) -> Faults
    ensures value { (names : List (List ℕ)) (p : Part) → options_view names rest.now ≡ read_of p → faults_view names result ≡ judged (all_faults place (map rule_view rules.now) p) }
    ensures numbers { (n : ℕ) → numbers_below n (first_numbers rest.now.faults.first) ≡ true → numbers_below n (first_numbers result.first) ≡ true }
{
    if is_complete(rest, rules) {
        return rest.faults;
    }
    Faults::of(CommandFault::Syntax(place)).joined(rest.faults)
}
