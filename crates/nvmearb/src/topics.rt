// Help on the files that the program reads: `nvmearb help workload`, `nvmearb help simulation` and `nvmearb help trace`.

const WORKLOAD: &str = r#"A short workload file is TOML. All keys but version may be left out.

Key             Default        Range                                   Example
version         (required)     1                                       version = 1
mechanism       "round-robin"  "round-robin", "weighted"               mechanism = "weighted"
burst           1              1, 2, 4, 8, 16, 32, 64, "none"          burst = 8
weights         each 1         high, medium, low: each 1 to 256        weights = { high = 8, low = 2 }
namespaces      [1048576]      at most 16 sizes, 1 to 2^63 - 1 blocks  namespaces = [1000, 2000]
patience        100000000      1 to 4294967295 turns                   patience = 1000000
admin_depth     1024           2 to 4096 slots                         admin_depth = 16
admin_cq_depth  1024           2 to 4096 slots                         admin_cq_depth = 64
queue           none           at most 64 tables                       [[queue]]
admin           none           an array of commands                    admin = [{ op = "delete", queue = 1 }]

Each [[queue]], of which the first is queue 1:
class           "medium"       "urgent", "high", "medium", "low"       class = "high"
depth           1024           2 to 4096 slots                         depth = 64
cq              one of its own the number of an earlier queue          cq = 1
cq_depth        1024           2 to 4096 slots, not beside cq          cq_depth = 64
script          none           an array of items                       script = [{ op = "read" }]

An item of a script, by op:
op              (required)     "read", "write", "flush", 0 to 255      { op = "read", blocks = 8, count = 100 }
nsid            1              0 to 4294967295                         { op = "flush", nsid = 2 }
slba            0              0 to 2^63 - 1 (read, write)             { op = "read", slba = 4096 }
blocks          1              1 to 65536 (read, write)                { op = "write", blocks = 8 }
count           1              1 to 65536 commands                     { op = "write", count = 4 }
spread          "same"         "same", "sequential" (read, write)      { op = "read", count = 9, spread = "sequential" }
repeat          instead of op  1 to 65536, beside a script of its own  { repeat = 10, script = [{ op = "flush" }] }

An item of admin, by op:
create, delete  queue          the number of a queue                   { op = "create", queue = 2 }
abort           queue, cid     0 to 65535                              { op = "abort", queue = 1, cid = 0 }
set-arbitration burst, weights as above                                { op = "set-arbitration", burst = 4 }
get-features    feature        "arbitration", "number-of-queues"       { op = "get-features" }

  nvmearb lint FILE     what of a file is at fault, or comes to nothing
  nvmearb expand FILE   the same workload entry by entry; nvmearb(5) has that form
"#;

const SIMULATION: &str =
    r#"A simulation file is TOML. All keys but version, device, queue and its arrivals may be left out.

Key             Default        Range                                   Example
version         (required)     1                                       version = 1
mechanism       "round-robin"  "round-robin", "weighted"               mechanism = "weighted"
burst           1              1, 2, 4, 8, 16, 32, 64, "none"          burst = 8
weights         each 1         high, medium, low: each 1 to 256        weights = { high = 8, low = 2 }

[simulation]:
seed            1              0 to 2^63 - 1                           seed = 3
commands        100000         1 to 100000000, not beside time         commands = 1000000
time            none           the duration in which commands come     time = "30s"
warm_up         0              0 to 100000000 first ones, uncounted    warm_up = 50000

[device]:
channels        1              1 to 65535, each runs one command       channels = 4
depth           channels, 4095 1 to 4095 commands at a time            depth = 8
placing         "pool"         "pool", "striped" over the channels     placing = "striped"
stripe          8              1 to 2^63 - 1 blocks, where striped     stripe = 16
size            1048576        1 to 2^63 - 1 blocks                    size = 2048
read, write, flush             a service                               read = "80us"
pauses          none           every, for: durations, of each channel  pauses = { every = "500ms", for = "3ms" }

Each [[queue]], 1 to 64, of which the first is queue 1:
class           "medium"       "urgent", "high", "medium", "low"       class = "high"
slots           1024           2 to 4096; window min(256, slots - 1)   slots = 64
arrivals        (required)     one of those below                      arrivals = { poisson = 11667 }
mix             reads alone    read, write, flush: shares, 0 to 2^32-1 mix = { read = 7, write = 3 }
blocks          8              1 to 65536 of each command              blocks = 64
offsets         "uniform"      "uniform", "sequential"                 offsets = "sequential"
read, write, flush             a service, in place of the device's     write = "20us"

Arrivals, where a gap is a duration, or commands a second from 1 to 10^12:
poisson         exponential gaps of this mean                          { poisson = "85.7us" }
every           equal gaps                                             { every = 10000 }
closed          1 to 4096 out, the next a think after each end         { closed = 32, think = "10us" }
bursts          poisson in the on phases alone                         { bursts = { poisson = 20000, on = "2ms", off = "3ms" } }
replay          those of a file, with the keys below                   { replay = "run.csv", form = "csv", speed = 2 }

A replay, which says what mix, blocks and offsets say else, until its file ends:
replay          (required)     the name of a file                      replay = "trace.csv"
form            (required)     "csv","msr","alibaba","blkparse","fio"  form = "msr"
speed           1              a number above 0                        speed = "0.5"
queue                          1 to 65535, whose lines of a csv        queue = 2

A service is a duration, or a table with one of these, and per_block, a duration for each block:
fixed           always this long                                       { fixed = "80us", per_block = "500ns" }
exponential     exponential of this mean                               { exponential = "80us" }
usual           this long; with probability 1/one_in rare              { usual = "20us", rare = "2ms", one_in = 100 }
quantiles       between two or more, at equal steps of probability     { quantiles = ["60us", "80us", "2ms"] }

A duration is a number and its unit, ps, ns, us, ms or s: "80us", "1.5ms".

  nvmearb lint FILE              what of a file is at fault, or more than the device can do
  nvmearb simulate FILE          latencies, throughput and shares
  nvmearb simulate --help        seeds, ends, loads, logs, traces, pictures and sweeps
"#;

const TRACE: &str =
    r#"A trace has a JSON object on each line: a head, then a line for each pick and each change of the settings.

Field      Value                                                                 Example
Head:
version    1                                                                     "version":1
mechanism  "round-robin", "weighted"                                             "mechanism":"weighted"
cdw11      0 to 4294967295: the settings, as nvmearb settings tells them         "cdw11":117637379
last       where the trace begins in the middle: the queues served last, of      "last":{"high":1}
           each class; under round robin "all", the one of all
used       and how many commands of each level were picked in the round          "used":{"high":2}

A pick:
pick       0 to 65535: the queue                                                 "pick":1
n          0 to 65535: how many commands were taken                              "n":2
room       1 to 65535: how many commands the device had room for, if limited     "room":4
fresh      true where a new round starts, false else; needed by check alone,     "fresh":false
           without --spec
seen       for each open queue, by number: [queue, class, commands that wait]    "seen":[[1,"high",5],[4,"low",5]]
           queue 0 to 64; "admin" (queue 0), "urgent", "high", "medium", "low";
           0 to 256, as before the pick, where 256 stands for more

A change of the settings:
set        0 to 4294967295: the new settings                                     "set":33554690

Fields of your own begin with x_.

{"version":1,"mechanism":"weighted","cdw11":50397185}
{"pick":1,"n":2,"fresh":false,"seen":[[1,"high",5],[4,"low",5]]}

  nvmearb check FILE         is each pick the one that this front makes?
  nvmearb check --spec FILE  is each pick one that the specification allows?
  nvmearb stats FILE         picks, commands, shares and waits
"#;

const DEMO: &str = "Shows a workload, its picks and its shares, without a file, and how to go on.

Usage: nvmearb demo
";

/// The help on files, or on the demonstration, that the words ask for.
pub(crate) fn topic(words: &[String]) -> Option<&'static str> {
    match words {
        [_, help, topic] if help.as_str() == "help" => match topic.as_str() {
            "workload" => Some(WORKLOAD),
            "simulation" => Some(SIMULATION),
            "trace" => Some(TRACE),
            "demo" => Some(DEMO),
            _ => None,
        },
        [_, demo, help] if demo.as_str() == "demo" => match help.as_str() {
            "-h" | "--help" => Some(DEMO),
            _ => None,
        },
        _ => None,
    }
}
