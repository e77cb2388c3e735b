// The last line of a script that was played, and that of a generated schedule: compact JSON whose keys are sorted.

ghost use Rattle.std.specs.Prelude.{◌≡◌, ◌++◌, codes, false, IfOk, OnOk};
ghost use Rattle.std.specs.Option.{option_map_or};
ghost use Rattle.serde_json.specs.Data.{array, no_members, null, object, put as with_member};
ghost use Rattle.serde_json.specs.View.{members_view, view};
ghost use Rattle.serde_json.specs.Written.{compact_text, has_float};
ghost use Rattle.tw_base.specs.kinds.Names.{name_text};
ghost use Rattle.tw_text.specs.Summaries.{audit_word as word_of, count, counts_of_steps, generated_data, generated_line, generated_of_values, replayed_line, replayed_of_values, with_services};

use serde_json::{Map, Value, json};
use std::alloc::{AllocError, Global};
use tw_base::{Bytes, Key, KeyList, Name, NoMemory};

/// The last line of a script that was played: how many answers began with each of the four words, and for each service a key of its
/// name and the number of its steps, in whatever order.
pub fn print_replayed(
    alloc: Global,
    accepted: u64,
    none: u64,
    refused: u64,
    rejected: u64,
    services: &KeyList,
) -> Result<Bytes, NoMemory>
    // The last line of a script that was played is exactly the text of the definitions.
    ensures { IfOk result (λ text. text ≡ replayed_line accepted none refused rejected services.now) }
{
    let steps = services_value(alloc, services.as_slice())?;
    let value = replayed_value(alloc, accepted, none, refused, rejected, &steps)?;
    print_value(alloc, &value)
}

/// The line of a generated schedule: whether the audit stands (else texts clash); the map's bounds, of which the high one may be missing;
/// the hops of the proof; the steps of alpha, beta and gamma; and how many threads all three received.
pub fn print_generated(
    alloc: Global,
    stands: bool,
    high: Option<u64>,
    hops: u64,
    low: u64,
    steps: [u64; 3],
    threads: u64,
) -> Result<Bytes, NoMemory>
    // The line of a generated schedule is exactly the text of the definitions.
    ensures { IfOk result (λ text. text ≡ generated_line stands high hops low steps threads) }
{
    let value = generated_data_of(alloc, stands, high, hops, low, steps, threads)?;
    print_value(alloc, &value)
}

/// The compact text of the value, and a line feed.
fn print_value(alloc: Global, value: &Value) -> Result<Bytes, NoMemory>
    requires { has_float (view value.now) ≡ false }
    ensures { IfOk result (λ text. text ≡ compact_text (view value.now) ++ codes "\n") }
{
    let written = value.to_string(alloc)?;
    let mut text = Bytes::from_slice(alloc, written.as_bytes())?;
    text.extend_from_slice(b"\n")?;
    Ok(text)
}

/// The number of a service's steps, by its name, more.
fn put_steps(
    alloc: Global,
    named: &mut Map<String, Value>,
    name: &Name,
    steps: u64,
) -> Result<(), NoMemory>
    ensures { OnOk result (members_view named.new.entries
        ≡ with_member (name_text name.now) (count steps) (members_view named.old.entries)) }
{
    match std::str::from_utf8(name.text()) {
        Ok(name) => {
            serde_json::put(named, alloc, name, Value::from(steps))?;
            Ok(())
        }
        Err(_) => unreachable!(),
    }
}

/// The numbers of steps of services, by their names.
fn steps_by_name(alloc: Global, services: &[Key]) -> Result<Map<String, Value>, NoMemory>
    ensures { IfOk result (λ named. members_view named.entries ≡ with_services no_members services.now) }
{
    let mut named = Map::new(alloc);
    for service in services {
        put_steps(alloc, &mut named, &service.from, service.step)?;
    }
    Ok(named)
}

/// The numbers of steps of services, by their names, as a value.
fn services_value(alloc: Global, services: &[Key]) -> Result<Value, NoMemory>
    ensures { IfOk result (λ v. view v ≡ object (with_services no_members services.now)) }
{
    let named = steps_by_name(alloc, services)?;
    Ok(Value::Object(named))
}

/// What came of a script as a value.
fn replayed_value(
    alloc: Global,
    accepted: u64,
    none: u64,
    refused: u64,
    rejected: u64,
    services: &Value,
) -> Result<Value, AllocError>
    ensures { IfOk result (λ v. view v ≡ replayed_of_values accepted none refused rejected (view services.now)) }
{
    json!(in alloc; {
        "accepted": accepted,
        "none": none,
        "refused": refused,
        "rejected": rejected,
        "services": services
    })
}

/// What is told of the audit.
fn audit_word(stands: bool) -> &'static str
    ensures { result.now ≡ word_of stands }
{
    if stands { "stands" } else { "clash" }
}

/// The bound, or null.
fn bound_value(bound: Option<u64>) -> Value
    ensures { view result ≡ option_map_or count bound null }
{
    match bound {
        None => Value::Null,
        Some(bound) => Value::from(bound),
    }
}

/// The numbers of steps.
fn steps_value(alloc: Global, steps: [u64; 3]) -> Result<Value, AllocError>
    ensures { IfOk result (λ v. view v ≡ array (counts_of_steps steps)) }
{
    let [alpha, beta, gamma] = steps;
    json!(in alloc; [alpha, beta, gamma])
}

/// What came of a schedule as a value, of these values.
fn generated_value(
    alloc: Global,
    audit: &str,
    high: &Value,
    hops: u64,
    low: u64,
    steps: &Value,
    threads: u64,
) -> Result<Value, AllocError>
    ensures { IfOk result (λ v. view v ≡ generated_of_values audit.now (view high.now) hops low (view steps.now) threads) }
{
    json!(in alloc; {
        "audit": audit,
        "high": high,
        "hops": hops,
        "low": low,
        "steps": steps,
        "threads": threads,
        "verdict": "accepted"
    })
}

/// What came of a schedule as a value.
#[tactic(auto, unfolding(crate::specs::Summaries::generated_data))]
fn generated_data_of(
    alloc: Global,
    stands: bool,
    high: Option<u64>,
    hops: u64,
    low: u64,
    steps: [u64; 3],
    threads: u64,
) -> Result<Value, AllocError>
    ensures { IfOk result (λ v. view v ≡ generated_data stands high hops low steps threads) }
{
    let high = bound_value(high);
    let steps = steps_value(alloc, steps)?;
    generated_value(alloc, audit_word(stands), &high, hops, low, &steps, threads)
}
