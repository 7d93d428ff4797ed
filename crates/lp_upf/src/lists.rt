//! Lists, whose elements are judged one by one.
ghost use Rattle.std.specs.Prelude.{◌≡◌, ◌<◌, [], ℕ, List, length, true};
ghost use Rattle.std.specs.Option.{option_map};
ghost use Rattle.lp_model.specs.Agreement.{numbers_below};
ghost use Rattle.lp_model.specs.CommandsView.{line_numbers, line_view, word_view};
ghost use Rattle.lp_spec_upf.specs.Commands.{element_faults, list_faults, name_faults, stop_place};
ghost use Rattle.lp_upf.specs.Faults.{faults_view, first_numbers, judged};
ghost use Rattle.lp_upf.specs.Lists.{ended, is_short, judge, listing_view, next_of};
ghost use Rattle.lp_upf.specs.Tables.{element_of, form_of};

use crate::fault::{CommandFault, Faults};
use crate::tables::{Element, Form};
use crate::words::{is_name, is_one_of};
use lp_model::UpfWord;
use lp_text::{Names, Place, micros_bytes};
use lp_upf_words::{Elements, Stop};

/// A list while it is read.
#[derive(Clone, Copy)]
struct Listing {
    /// What has to come from here on.
    form: Form,
    /// The faults so far.
    faults: Faults,
}

/// What an element has to be, and the form behind it; none where the list is full.
#[tactic(auto, using(crate::proofs::Forms::exactly_more))]
fn next_of(form: Form, text: &[u8]) -> Option<(Element, Form)>
    ensures { option_map (λ r. (element_of r.0, form_of r.1)) result ≡ next_of (form_of form) text.now }
{
    match form {
        Form::Closed | Form::Names(0) => None,
        Form::Rest => Some((Element::Any, Form::Rest)),
        Form::One(element) => Some((element, Form::Closed)),
        Form::Two(element, next) => Some((element, Form::One(next))),
        Form::Names(count) => Some((Element::Any, Form::Names(count - 1))),
        Form::Expression => Some((Element::Any, Form::Two(Element::Any, Element::Text))),
        Form::PortState => Some((Element::Any, Form::Voltages)),
        Form::Voltages => {
            if text == b"off".as_slice() {
                Some((Element::Text, Form::Closed))
            } else {
                Some((Element::Voltage, Form::Greater))
            }
        }
        Form::Greater => Some((Element::Voltage, Form::One(Element::Voltage))),
    }
}

/// Whether a list may not end so.
#[tactic(auto, using(crate::proofs::Forms::exactly_more))]
fn is_short(form: Form) -> bool
    ensures { result ≡ is_short (form_of form) }
{
    match form {
        Form::Closed | Form::Rest | Form::Greater | Form::Names(0) => false,
        Form::One(_)
        | Form::Two(_, _)
        | Form::Names(_)
        | Form::Expression
        | Form::PortState
        | Form::Voltages => true,
    }
}

/// The fault of a word that gives a name, if it is none.
pub(crate) fn name_faults(names: &Names, word: UpfWord) -> Faults
    requires { word.name.0 < length names.now }
    ensures value { faults_view names.now result ≡ judged (name_faults (word_view names.now word)) }
    ensures numbers { first_numbers result.first ≡ [] }
{
    if is_name(names.text(word.name).as_bytes()) {
        Faults::none()
    } else {
        Faults::of(CommandFault::Syntax(word.place))
    }
}

/// The faults of an element.
fn element_faults(names: &Names, element: Element, word: UpfWord) -> Faults
    requires { word.name.0 < length names.now }
    ensures value { faults_view names.now result ≡ judged (element_faults (element_of element) (word_view names.now word)) }
    ensures numbers { numbers_below (length names.now) (first_numbers result.first) ≡ true }
{
    let text = names.text(word.name).as_bytes();
    match element {
        Element::Any => name_faults(names, word),
        Element::Text => Faults::none(),
        Element::Among(choice) => {
            if is_one_of(choice, text) {
                Faults::none()
            } else {
                Faults::of(CommandFault::Unsupported(word.place, word.name))
            }
        }
        Element::Voltage => match micros_bytes(text) {
            Some(_) => Faults::none(),
            None => Faults::of(CommandFault::Syntax(word.place)),
        },
    }
}

fn stop_place(stop: Stop) -> Place
    ensures { result ≡ stop_place stop }
{
    match stop {
        Stop::Syntax(place) | Stop::Dollar(place) | Stop::Bracket(place) => place,
    }
}

/// One element more.
fn judge(names: &Names, listing: Listing, word: UpfWord) -> Listing
    requires below { word.name.0 < length names.now }
    requires numbers { numbers_below (length names.now) (first_numbers listing.faults.first) ≡ true }
    ensures value { listing_view names.now result ≡ judge (listing_view names.now listing) (word_view names.now word) }
    ensures numbers { numbers_below (length names.now) (first_numbers result.faults.first) ≡ true }
{
    match next_of(listing.form, names.text(word.name).as_bytes()) {
        None => Listing {
            form: listing.form,
            faults: listing
                .faults
                .joined(Faults::of(CommandFault::Syntax(word.place))),
        },
        Some((element, form)) => Listing {
            form,
            faults: listing.faults.joined(element_faults(names, element, word)),
        },
    }
}

/// The end of a list.
fn end(listing: Listing, stop: Option<Stop>, place: Place) -> Faults
    ensures value { (names : List (List ℕ)) → faults_view names result ≡ ended (listing_view names listing) stop place }
    ensures numbers { (n : ℕ) → numbers_below n (first_numbers listing.faults.first) ≡ true → numbers_below n (first_numbers result.first) ≡ true }
{
    match stop {
        Some(stop) => listing
            .faults
            .joined(Faults::of(CommandFault::Syntax(stop_place(stop)))),
        None => {
            if is_short(listing.form) {
                listing
                    .faults
                    .joined(Faults::of(CommandFault::Syntax(place)))
            } else {
                listing.faults
            }
        }
    }
}

/// The faults of a list, whose elements have to be of this form.
pub(crate) fn list_faults(names: &Names, form: Form, elements: &Elements) -> Faults
    requires { numbers_below (length names.now) (line_numbers elements.now.words) ≡ true }
    ensures value { faults_view names.now result ≡ judged (list_faults (form_of form) (line_view names.now elements.now.words) elements.now.stop elements.now.end) }
    ensures numbers { numbers_below (length names.now) (first_numbers result.first) ≡ true }
{
    let mut listing = Listing {
        form,
        faults: Faults::none(),
    };
    for word in elements.words.as_slice() {
        listing = judge(names, listing, *word);
        if listing.faults.cut {
            return listing.faults;
        }
    }
    end(listing, elements.stop, elements.end)
}
