//! Calls as text. A line is a call and its answer behind ` > `. A call that may be refused has no answer, or
//! `no`; what isn't there is `none`.

ghost use Rattle.std.specs.Prelude.{◌≡◌};
ghost use Rattle.subscriptions.specs.Rooms.{are_filters};

use list_types::Text;
use mqtt_packet::{Ask, Asks, Codes, Filters, Qos};
use std::alloc::{AllocError, Global};
use subscriptions::{Renewal, Subscriptions};
use topic_filter::{is_filter, is_name};

/// The number of the first line that is answered otherwise, counted from 0.
pub fn differs<const ROUTES: usize>(
    routes: &mut Subscriptions<ROUTES>,
    alloc: Global,
    history: &str,
) -> Option<usize> {
    for (k, line) in history.lines().enumerate() {
        if !is_answered(routes, alloc, line) {
            return Some(k);
        }
    }
    None
}

/// Subscribes to the filters 100, 101, 102 and so on, of which each is granted that has room: how many.
pub fn fill<const ROUTES: usize>(routes: &mut Subscriptions<ROUTES>, alloc: Global) -> Option<u32> {
    let mut count = 0u32;
    for id in 100..1_300u16 {
        let subscribe = format!(in alloc; "subscribe 1 {id} 0 {id}").ok()?;
        let suback = format!(in alloc; "suback {id} 0").ok()?;
        if is_answered(routes, alloc, subscribe.as_str())
            && is_answered(routes, alloc, suback.as_str())
        {
            count = count.wrapping_add(1);
        }
    }
    Some(count)
}

fn is_answered<const ROUTES: usize>(
    routes: &mut Subscriptions<ROUTES>,
    alloc: Global,
    line: &str,
) -> bool {
    match answer(routes, alloc, line) {
        Ok(answer) => ends_with(line, answer.as_str()),
        Err(_) => false,
    }
}

/// Whether this is the answer on a line.
fn ends_with(line: &str, answer: &str) -> bool {
    match line.as_bytes().strip_suffix(answer.as_bytes()) {
        Some(call) => !call.contains(&b'>'),
        None => false,
    }
}

/// The word at this place, or an empty one.
fn word(line: &str, at: usize) -> &str {
    match line.split(' ').nth(at) {
        Some(word) => word,
        None => "",
    }
}

fn number(line: &str, at: usize) -> u16 {
    let mut number = 0u16;
    for digit in word(line, at).as_bytes() {
        let value = digit.wrapping_sub(b'0');
        number = number.wrapping_mul(10).wrapping_add(u16::from(value));
    }
    number
}

fn task(line: &str, at: usize) -> u32 {
    u32::from(number(line, at))
}

fn answer<const ROUTES: usize>(
    routes: &mut Subscriptions<ROUTES>,
    alloc: Global,
    line: &str,
) -> Result<String, AllocError> {
    match word(line, 0) {
        "asked" => count(alloc, routes.asked_len(number(line, 1))),
        "renewal" => count(alloc, routes.renewal_len(number(line, 1))),
        "renewals" => count(alloc, Some(routes.renewals_len())),
        "reached" => reached(routes, alloc, word(line, 1)),
        "unsure" => renewable(routes, alloc, false, number(line, 1)),
        "all" => renewable(routes, alloc, true, number(line, 1)),
        _ => said(alloc, is_done(routes, alloc, line)?),
    }
}

fn said(alloc: Global, yes: bool) -> Result<String, AllocError> {
    if yes {
        Ok(String::new(alloc))
    } else {
        format!(in alloc; " > no")
    }
}

fn count(alloc: Global, count: Option<usize>) -> Result<String, AllocError> {
    match count {
        Some(count) => format!(in alloc; " > {count}"),
        None => format!(in alloc; " > none"),
    }
}

/// Those of the tasks 0, 1 and 2 that have a route that fits a name.
fn reached<const ROUTES: usize>(
    routes: &Subscriptions<ROUTES>,
    alloc: Global,
    name: &str,
) -> Result<String, AllocError> {
    let mut text = format!(in alloc; " > tasks")?;
    for task in 0..3u32 {
        if is_reached(routes, name, task) {
            let digit = format!(in alloc; " {task}")?;
            text.push_str(digit.as_str())?;
        }
    }
    Ok(text)
}

fn is_reached<const ROUTES: usize>(routes: &Subscriptions<ROUTES>, name: &str, task: u32) -> bool {
    is_name(name) && routes.next_match(name, task) == Some(task)
}

/// What is asked for again, from a place on: each filter behind its quality of service.
fn renewable<const ROUTES: usize>(
    routes: &Subscriptions<ROUTES>,
    alloc: Global,
    all: bool,
    from: u16,
) -> Result<String, AllocError> {
    let asks = routes.unsure(alloc, all, usize::from(from))?;
    let mut text = format!(in alloc; " > asks")?;
    for ask in asks.iter() {
        let pair = format!(in alloc; " {} {}", level(ask.qos), ask.filter.as_str())?;
        text.push_str(pair.as_str())?;
    }
    Ok(text)
}

fn level(qos: Qos) -> u8 {
    match qos {
        Qos::AtMostOnce => 0,
        Qos::AtLeastOnce => 1,
        Qos::ExactlyOnce => 2,
    }
}

fn qos_of(level: u16) -> Qos {
    match level {
        0 => Qos::AtMostOnce,
        1 => Qos::AtLeastOnce,
        _ => Qos::ExactlyOnce,
    }
}

/// Makes a change, and says whether it may be made.
fn is_done<const ROUTES: usize>(
    routes: &mut Subscriptions<ROUTES>,
    alloc: Global,
    line: &str,
) -> Result<bool, AllocError> {
    match word(line, 0) {
        "subscribe" => subscribe(routes, alloc, task(line, 1), number(line, 2), line),
        "suback" => suback(routes, number(line, 1), codes(alloc, line)?),
        "renew" => renew(routes, alloc, number(line, 1)),
        "renewed" => renewal_suback(routes, number(line, 1), codes(alloc, line)?),
        "set" => set(routes, alloc, number(line, 1)),
        "unsubscribe" => unsubscribe(routes, alloc, task(line, 1), word(line, 2)),
        "other" => other_has(routes, alloc, task(line, 1), word(line, 2)),
        _ => Ok(is_ended(routes, line)),
    }
}

/// Makes a change that takes no memory.
fn is_ended<const ROUTES: usize>(routes: &mut Subscriptions<ROUTES>, line: &str) -> bool {
    match word(line, 0) {
        "lose" => routes.lose(number(line, 1)),
        "lose_all" => routes.lose_all(),
        "leave" => routes.drop_task(task(line, 1)),
        "session_lost" => routes.session_lost(),
        "broke" => routes.broke(),
        _ => return false,
    }
    true
}

fn push(asks: &mut Asks, alloc: Global, qos: Qos, filter: &str) -> Result<(), AllocError> {
    let filter = Text::from_str(alloc, filter)?;
    asks.push(Ask { filter, qos })?;
    Ok(())
}

/// The filters of a subscribe, each behind its quality of service.
fn asks(alloc: Global, line: &str) -> Result<Asks, AllocError> {
    let mut asks = Asks::new(alloc);
    for k in 0..8usize {
        let at = 2 * k + 3;
        if word(line, at).is_empty() || word(line, at) == ">" {
            break;
        }
        push(
            &mut asks,
            alloc,
            qos_of(number(line, at)),
            word(line, at + 1),
        )?;
    }
    Ok(asks)
}

fn are_filters(asks: &Asks) -> bool
    ensures { result ≡ are_filters asks.now }
{
    asks.iter().all(|ask| is_filter(ask.filter.as_str()))
}

/// Sends a subscribe where there is room.
fn subscribe<const ROUTES: usize>(
    routes: &mut Subscriptions<ROUTES>,
    alloc: Global,
    task: u32,
    id: u16,
    line: &str,
) -> Result<bool, AllocError> {
    let asks = asks(alloc, line)?;
    if are_filters(&asks) && routes.has_room(task, &asks) {
        routes.ask(alloc, task, id, &asks)?;
        return Ok(true);
    }
    Ok(false)
}

/// The codes of a SUBACK.
fn codes(alloc: Global, line: &str) -> Result<Codes, AllocError> {
    let mut codes = Codes::new(alloc);
    for k in 0..8usize {
        if word(line, k + 2).is_empty() || word(line, k + 2) == ">" {
            break;
        }
        let [code, _] = number(line, k + 2).to_le_bytes();
        codes.push(code)?;
    }
    Ok(codes)
}

/// The SUBACK of a subscribe, where one of so many filters is open.
fn suback<const ROUTES: usize>(
    routes: &mut Subscriptions<ROUTES>,
    id: u16,
    codes: Codes,
) -> Result<bool, AllocError> {
    if let Some(count) = routes.asked_len(id) {
        if count == codes.len() {
            routes.grant(id, &codes);
            return Ok(true);
        }
    }
    Ok(false)
}

/// The SUBACK of a renewal, where one of so many filters is open.
fn renewal_suback<const ROUTES: usize>(
    routes: &mut Subscriptions<ROUTES>,
    id: u16,
    codes: Codes,
) -> Result<bool, AllocError> {
    if let Some(count) = routes.renewal_len(id) {
        if count == codes.len() {
            routes.grant_renewal(id, &codes);
            return Ok(true);
        }
    }
    Ok(false)
}

/// Sends a renewal of what is unsure.
fn renew<const ROUTES: usize>(
    routes: &mut Subscriptions<ROUTES>,
    alloc: Global,
    id: u16,
) -> Result<bool, AllocError> {
    let asks = routes.unsure(alloc, false, 0)?;
    routes.renewed(id, asks)?;
    Ok(true)
}

/// One renewal is open, of the filter `a`.
fn set<const ROUTES: usize>(
    routes: &mut Subscriptions<ROUTES>,
    alloc: Global,
    id: u16,
) -> Result<bool, AllocError> {
    let mut asks = Asks::new(alloc);
    push(&mut asks, alloc, Qos::AtMostOnce, "a")?;
    let mut renewals = Vec::new(alloc);
    renewals.push(Renewal { id, asks })?;
    routes.set_renewals(renewals);
    Ok(true)
}

/// An unsubscribe of one filter is done.
fn unsubscribe<const ROUTES: usize>(
    routes: &mut Subscriptions<ROUTES>,
    alloc: Global,
    task: u32,
    filter: &str,
) -> Result<bool, AllocError> {
    let mut filters = Filters::new(alloc);
    filters.push(Text::from_str(alloc, filter)?)?;
    routes.drop_filters(task, &filters);
    Ok(true)
}

fn other_has<const ROUTES: usize>(
    routes: &Subscriptions<ROUTES>,
    alloc: Global,
    task: u32,
    filter: &str,
) -> Result<bool, AllocError> {
    let filter = Text::from_str(alloc, filter)?;
    Ok(routes.other_has(task, &filter))
}
