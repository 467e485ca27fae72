// What the program is asked to draw.
ghost use Rattle.std.specs.Prelude.{◌≡◌, map, string_bytes};
ghost use Rattle.sa_picture.specs.Request.{set_once, with_option, settings_of, in_order, request_by, request_of, form_in, with_form, with_package, form_by, picture_form, events_form, page_form, is_whole, part_of};

use sa_base::{RulesName, read_rules};
use sa_drawing::{Drawing, Part};
use sa_svg::{DEFAULT_WIDTH, MAX_WIDTH, MIN_WIDTH};
use sa_text::read_number;

/// What is written: what is made of a trace alone, or a page of a workload and its trace, by the rules of this package.
#[derive(Clone, Copy)]
pub enum Form {
    Drawn(Drawing),
    Page(RulesName),
}

/// The word of a form.
#[derive(Clone, Copy)]
pub(crate) enum FormWord {
    Svg,
    Events,
    Page,
}

/// What the program is asked to draw: in this form, and for a picture the events from one to another, each as it is where none
/// is named, so wide in pixels.
#[derive(Clone, Copy)]
pub struct Request {
    pub form: Form,
    pub from: Option<u64>,
    pub to: Option<u64>,
    pub width: u64,
}

impl Request {
    /// The part of the trace that a picture shows.
    pub(crate) fn part(self) -> Part
        ensures { result ≡ part_of self }
    {
        Part {
            from: self.from,
            to: self.to,
            width: self.width,
        }
    }
}

/// What the words set.
#[derive(Clone, Copy)]
pub(crate) struct Settings {
    pub(crate) form: Option<FormWord>,
    pub(crate) rules: Option<RulesName>,
    pub(crate) from: Option<u64>,
    pub(crate) to: Option<u64>,
    pub(crate) width: Option<u64>,
}

/// The request that the words are: `None` exactly where they are none. It cannot fail for want of memory.
pub fn read_request(words: &[String]) -> Option<Request>
    ensures { result ≡ request_of (map string_bytes words.now) }
{
    let nothing = Settings {
        form: None,
        rules: None,
        from: None,
        to: None,
        width: None,
    };
    request_by(read_settings(nothing, words)?)
}

// The request of these settings, where its events are in order.
fn request_by(settings: Settings) -> Option<Request>
    ensures { result ≡ request_by settings }
{
    let form = form_by(settings)?;
    if !in_order(settings.from, settings.to) {
        return None;
    }
    Some(Request {
        form,
        from: settings.from,
        to: settings.to,
        width: settings.width.unwrap_or(DEFAULT_WIDTH),
    })
}

// The form: a picture takes no package, trace events take no other option, and a page no events and no width.
fn form_by(settings: Settings) -> Option<Form>
    ensures { result ≡ form_by settings }
{
    match settings.form {
        None | Some(FormWord::Svg) => picture_form(settings),
        Some(FormWord::Events) => events_form(settings),
        Some(FormWord::Page) => page_form(settings),
    }
}

fn picture_form(settings: Settings) -> Option<Form>
    ensures { result ≡ picture_form settings }
{
    if settings.rules.is_some() {
        return None;
    }
    Some(Form::Drawn(Drawing::Picture))
}

fn events_form(settings: Settings) -> Option<Form>
    ensures { result ≡ events_form settings }
{
    if settings.rules.is_some() || !is_whole(settings) {
        return None;
    }
    Some(Form::Drawn(Drawing::Events))
}

fn page_form(settings: Settings) -> Option<Form>
    ensures { result ≡ page_form settings }
{
    if !is_whole(settings) {
        return None;
    }
    Some(Form::Page(settings.rules.unwrap_or(RulesName::FastThreads)))
}

// No part of the events is asked for, and no width.
fn is_whole(settings: Settings) -> bool
    ensures { result ≡ is_whole settings }
{
    settings.from.is_none() && settings.to.is_none() && settings.width.is_none()
}

fn in_order(from: Option<u64>, to: Option<u64>) -> bool
    ensures { result ≡ in_order from to }
{
    match (from, to) {
        (Some(from), Some(to)) => from <= to,
        _ => true,
    }
}

// What is set after these words.
fn read_settings(settings: Settings, words: &[String]) -> Option<Settings>
    ensures { result ≡ settings_of settings (map string_bytes words.now) }
{
    match words {
        [] => Some(settings),
        [_] => None,
        [name, value, rest @ ..] => {
            let settings = with_option(settings, name, value.as_bytes())?;
            read_settings(settings, rest)
        }
    }
}

// What is set after one option.
fn with_option(settings: Settings, name: &str, value: &[u8]) -> Option<Settings>
    ensures { result ≡ with_option settings name.now value.now }
{
    if name == "--from" {
        let from = set_once(settings.from, 0, u64::MAX, value)?;
        return Some(Settings {
            from: Some(from),
            ..settings
        });
    }
    if name == "--to" {
        let to = set_once(settings.to, 0, u64::MAX, value)?;
        return Some(Settings {
            to: Some(to),
            ..settings
        });
    }
    if name == "--width" {
        let width = set_once(settings.width, MIN_WIDTH, MAX_WIDTH, value)?;
        return Some(Settings {
            width: Some(width),
            ..settings
        });
    }
    if name == "--form" {
        return with_form(settings, value);
    }
    if name == "--package" {
        return with_package(settings, value);
    }
    None
}

// The form is the one of the word, where none was set before.
fn with_form(settings: Settings, word: &[u8]) -> Option<Settings>
    ensures { result ≡ with_form settings word.now }
{
    if settings.form.is_some() {
        return None;
    }
    let form = form_in(word)?;
    Some(Settings {
        form: Some(form),
        ..settings
    })
}

fn form_in(word: &[u8]) -> Option<FormWord>
    ensures { result ≡ form_in word.now }
{
    if word == b"svg".as_slice() {
        Some(FormWord::Svg)
    } else if word == b"events".as_slice() {
        Some(FormWord::Events)
    } else if word == b"page".as_slice() {
        Some(FormWord::Page)
    } else {
        None
    }
}

// The package is the one of the word, where none was set before.
fn with_package(settings: Settings, word: &[u8]) -> Option<Settings>
    ensures { result ≡ with_package settings word.now }
{
    if settings.rules.is_some() {
        return None;
    }
    let rules = read_rules(word)?;
    Some(Settings {
        rules: Some(rules),
        ..settings
    })
}

// The number that the word spells, in its range, where none was set before.
fn set_once(old: Option<u64>, low: u64, high: u64, word: &[u8]) -> Option<u64>
    ensures { result ≡ set_once old low high word.now }
{
    if old.is_some() {
        return None;
    }
    let n = read_number(word)?;
    if low <= n && n <= high { Some(n) } else { None }
}
