//! What `--help` and `--version` say.

/// What the program is for.
pub(crate) const ABOUT: &str =
    "Decides whether a recorded history of calls on concurrent objects is linearizable.
Reads the history from standard input and prints the answer on standard output.
It takes no file name: lincheck < FILE";

/// The program's version: 0.1.0 as long as nothing is released.
pub(crate) const VERSION: &str = "0.1.0";

/// What `--workers` is good for.
pub(crate) const WORKERS: &str =
    "Search each object with N workers, 1 to 64 [default: 4], but at most one per core.
Without --limit and --seconds the answer is the same for every N; more workers speed up
only the longest searches, and need many shards";

/// What `--shards` is good for.
pub(crate) const SHARDS: &str =
    "Keep what the workers share in N shards, 1 to 256 [default: 16]. Without --limit and
--seconds the answer is the same for every N; the more workers, the more shards they
need to stay out of each other's way";

/// What `--limit` is good for.
pub(crate) const LIMIT: &str =
    "Try at most N calls in each part of a search, 1 to 1000000000000 [default: no limit].
A search that might never finish then ends with the answer `undecided`";

/// What `--seconds` is good for.
pub(crate) const SECONDS: &str =
    "End the check after about N seconds, 1 to 86400 [default: no end]. An object not decided
by then is `undecided`, or `not linearizable` without its longest run if that much is
known. All other answers are unaffected";

/// What `--progress` is good for.
pub(crate) const PROGRESS: &str =
    "Print a line on standard error every two seconds while an object is searched: how many
calls have been tried, and how many calls the furthest run so far has";

/// What `--stats` is good for.
pub(crate) const STATS: &str =
    "Print a last line `stored N` after the answer: how many refuted configurations (a set
of calls and the state after them) were kept, which shows how hard the search was";

/// What `--explain` is good for.
pub(crate) const EXPLAIN: &str =
    "After `not linearizable`, show a few calls that alone have no order, if such are found,
and why the longest run ends: its last calls, the state after it, each call that could
come next with the reply it would get there, and the calls that put or took the value it
asks for or should have found. Each call is shown with its lines in the input.
With --each, show only the few calls";

/// What `--each` is good for.
pub(crate) const EACH: &str =
    "Check every object, even after one that is not linearizable, and print one line for each
in place of the report: `x: linearizable`, `x: not linearizable` or `x: undecided`";

/// What is read, what is printed, and how the program ends.
pub(crate) const MANUAL: &str = "\
Input: one JSON object per line, in the order in which the events happened.
  {\"event\":\"object\",\"object\":\"x\",\"kind\":\"register\",\"start\":0}
      There is an object x. Only a register or a counter may have a start; the default is 0.
  {\"event\":\"call\",\"process\":1,\"object\":\"x\",\"op\":\"write\",\"args\":[5]}
      Process 1 calls write(5) on x. A process has one call at a time.
  {\"event\":\"return\",\"process\":1,\"object\":\"x\",\"result\":\"ok\"}
      The call of process 1 returns. A call that never returned may or may not have taken effect.
  {\"format\":2}
      Must be the first line if `fail` or `info` is used.
  {\"event\":\"fail\",\"process\":1,\"object\":\"x\"}
      The call of process 1 failed: it never took effect, and process 1 may call again.
  {\"event\":\"info\",\"process\":1,\"object\":\"x\"}
      Nobody knows whether the call of process 1 took effect. Process 1 has no further event.

  Names      1 to 64 of A-Z a-z 0-9 _ . / : -
  Processes  whole numbers from 0 to 4294967295
  Limits     1024 objects, 16384 calls on each, 262144 calls in all; lines of 65536 bytes, texts
             of 67108864

  Kinds, their operations, and the results (v, a, b and k are whole numbers of 64 bits):
    register   write(v): \"ok\"    read(): v           cas(a,b): true or false
    counter    add(v): \"ok\"      get(): v
    queue      enq(v): \"ok\"      deq(): v, or null if it is empty
    stack      push(v): \"ok\"     pop(): v, or null if it is empty
    set        add(v), remove(v), contains(v): true or false
    mutex      lock(): \"ok\"      unlock(): \"ok\"      try_lock(): true or false
    map        put(k,v): \"ok\"    get(k): v, or null if k has none
               delete(k): true or false

Output:
  linearizable           Below it are the calls in an order that explains the history, one per
                         line: place, process, object, operation = result. A call that never
                         returned is marked `completed`, or comes after the order as `dropped`.
                         If several orders exist, the lexicographically first is printed,
                         comparing calls by when they were called.
  not linearizable: x    No order explains the calls on x. Below it is the longest run of them
                         that can be explained, or a line saying that it was not found in time.
  undecided: x           --limit or --seconds ended the search of x before there was an answer.
  x: linearizable        With --each, one line for each object.
  line 3: bad event      The input is not a history: its first faulty line, and what is wrong there.

Exit status:
  0  linearizable
  1  not linearizable
  2  the input is not a history, or an argument is wrong
  3  undecided
  4  reading or writing failed, or memory ran out; standard error says which

Example: an item is added to a set twice, and both calls return true.
  printf '%s\\n' '{\"event\":\"object\",\"object\":\"e\",\"kind\":\"set\"}' \\
    '{\"event\":\"call\",\"process\":1,\"object\":\"e\",\"op\":\"add\",\"args\":[1]}' \\
    '{\"event\":\"return\",\"process\":1,\"object\":\"e\",\"result\":true}' \\
    '{\"event\":\"call\",\"process\":1,\"object\":\"e\",\"op\":\"add\",\"args\":[1]}' \\
    '{\"event\":\"return\",\"process\":1,\"object\":\"e\",\"result\":true}' | lincheck --explain
prints
  not linearizable: e
  these 2 calls on key 1 alone have no order:
    1 e add(1) = true (lines 2 and 3)
    1 e add(1) = true (lines 4 and 5)
  no other call from line 2 to line 5 adds or removes such an item
  longest run: 1 of 2 calls
  1 1 e add(1) = true
  after the run: e = {1}
  next 1 e add(1) = true (lines 4 and 5): here it would be false
    put by 1: add(1) = true (lines 2 and 3), in the run
and ends with status 1.
";
