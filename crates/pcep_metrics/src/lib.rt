// The METRICs of a message whose objects are right: how many there are, the bound and the first out of range among them, and their fields in lent buffers.
#![tactic(auto)]

ghost use Rattle.std.specs.Prelude.{◌≡◌, map, ◌+◌, ◌≤◌, length};
ghost use Rattle.model.specs.Lists.{over};
ghost use Rattle.pcep_model.specs.Objects.{METRIC, is_object};
ghost use Rattle.pcep_model.specs.Metrics.{metrics};
ghost use Rattle.pcep_laws.specs.Firsts.{noted as noted_by};
ghost use Rattle.pcep_metrics.specs.Along.{Passed, AtObject, NextMetric, MetricScanIs, kind_of, flags_of, value_of};

use wire::{u16_at, u32_at};

// The object at a place is a METRIC.
fn is_metric(message: &[u8], at: usize) -> bool
    requires { at + 4 ≤ length message.now }
    ensures { result ≡ is_object METRIC message.now at }
{
    message[at] == 6 && message[at + 1] / 16 == 1
}

// The first METRIC from an object on, or the end of the message.
fn next_metric(message: &[u8], from: usize) -> usize
    requires { AtObject message.now from }
    ensures { NextMetric message.now from result }
{
    let mut at = from;
    while at < message.len() {
        if is_metric(message, at) {
            return at;
        }
        at += u16_at(message, at + 2) as usize;
    }
    at
}

// The first place met that passes a test: the one known so far, or where there is none this one, if it does. It is stored at most once.
fn noted(hit: bool, known: &mut Option<u16>, at: u16)
    ensures { known.new ≡ noted_by hit known.old at }
{
    if hit && known.is_none() {
        *known = Some(at);
    }
}

// How many METRICs a message has, and where the first with B set and the first out of range start.
#[derive(Clone, Copy)]
pub struct MetricScan {
    pub count: usize,
    pub bound: Option<u16>,
    pub wrong: Option<u16>,
}

pub fn judge(message: &[u8]) -> MetricScan
    requires { Passed message.now }
    ensures { MetricScanIs message.now result }
{
    let mut scan = MetricScan {
        count: 0,
        bound: None,
        wrong: None,
    };
    let mut at = next_metric(message, 4);
    while at < message.len() {
        scan.count += 1;
        noted(message[at + 6] % 2 == 1, &mut scan.bound, at as u16);
        noted(
            0x7F800000 <= u32_at(message, at + 8),
            &mut scan.wrong,
            at as u16,
        );
        at = next_metric(message, at + 12);
    }
    scan
}

// Kind, flags and value of each METRIC, `count` of them, over the start of three lent buffers.
pub fn put_metrics(
    message: &[u8],
    count: usize,
    kinds: &mut [u8],
    flags: &mut [u8],
    values: &mut [u32],
)
    requires { (Passed message.now) × (count ≡ length (metrics message.now)) × (count ≤ length kinds.old) × (count ≤ length flags.old) × (count ≤ length values.old) }
    ensures kinds_after { kinds.new ≡ over (map kind_of (metrics message.now)) kinds.old }
    ensures flags_after { flags.new ≡ over (map flags_of (metrics message.now)) flags.old }
    ensures values_after { values.new ≡ over (map value_of (metrics message.now)) values.old }
{
    let mut at: usize = 4;
    for i in 0..count {
        at = next_metric(message, at);
        kinds[i] = message[at + 7];
        flags[i] = message[at + 6];
        values[i] = u32_at(message, at + 8);
        at += 12;
    }
}
