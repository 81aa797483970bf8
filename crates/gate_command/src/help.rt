//! The texts of the help, in lines of at most 80 columns.

pub(crate) const GATE: &str =
    "Decides which transactions may enter a Bitcoin mempool, by the policy of Bitcoin
Core 22.0";

pub(crate) const GATE_END: &str = "Exit status:
  0  what was asked is done
  1  gate check: the transaction is denied; gate audit: the journal is not
     legal; gate explain: nothing has that name; gate run --strict: something is
     denied; or reading or writing failed, or memory ran out
  2  the words ask for nothing, a file can't be opened, or the opening fails
  3  gate run --strict: a line is refused

Examples:
  gate run < examples/first-path.txt
  gate run < examples/replacement.txt
  gate run < examples/permissions.txt
  gate run < examples/policies.txt
  gate run < examples/rpc.txt
  gate run < examples/reorganisation.txt
  gate run < examples/living-chain.txt
  gate run --explain examples/own-payment.txt
  gate run --strict examples/own-payment.txt
  gate try --tip 100 --coin 1111111111111111111111111111111111111111111111111111111111111111:0,100000,1,00142222222222222222222222222222222222222222 - < examples/payment.hex
  gate try --tip 100 --psbt examples/payment.psbt --height 90
  gate check 01000000000000000000
  gate check - < examples/payment.hex
  gate lanes --journal < examples/lanes.txt
  gate lanes --workers 4 < examples/lanes.txt
  gate lanes < examples/rounds.txt
  gate audit < examples/journal.txt
  gate audit < examples/rounds-journal.txt
  gate rules
  gate explain A36
  gate explain insufficient fee
  gate settings

gate run <<'END'
times 101 1000 600
---
peer 1 enter 192.0.2.1
END

docs/FORMATS.md has every line that is read and printed, docs/POLICY.md every
rule; `gate explain` says what a rule or a token means.";

pub(crate) const CHECK: &str = "Checks one transaction by itself: prints its ids and weight, and
then `standard` or the first rule that fails";

pub(crate) const CHECK_HEX: &str =
    "A transaction in hexadecimal digits of either case; `-` takes them from
standard input";

pub(crate) const CHECK_END: &str = "Exit status:
  0  the transaction is standard
  1  it is denied; or reading or writing failed, or memory ran out
  2  the words ask for nothing

Examples:
  gate check 01000000000000000000
  gate check - < examples/payment.hex

gate check - <<'END'
01000000000000000000
END

docs/FORMATS.md has every line that is read and printed, docs/POLICY.md every
rule; `gate explain` says what a rule or a token means.";

pub(crate) const RUN: &str = "Reads a starting state, then answers each event after the line `---`
with one line";

pub(crate) const RUN_FILE: &str = "What to read; standard input if it is left out";

pub(crate) const RUN_EXPLAIN: &str = "Says on standard error why a line does not parse or an
event is denied, with the figures that decided it, which
transactions each event took out of the pool and brought
in, and a summary at the end";

pub(crate) const RUN_EXPLAIN_JSON: &str = "The same as one JSON object a line, with what an entry
left or came for; --explain=json is another name of it";

pub(crate) const RUN_STRICT: &str = "Ends with status 3 if a line was refused, or else with 1
if something was denied";

pub(crate) const RUN_END: &str = "Exit status:
  0  every line has its reply
  1  with --strict: something is denied; or reading or writing failed, or memory
     ran out
  2  the words ask for nothing, the file can't be opened, or the opening fails
  3  with --strict: a line is refused

Examples:
  gate run < examples/first-path.txt
  gate run < examples/replacement.txt
  gate run < examples/permissions.txt
  gate run < examples/policies.txt
  gate run < examples/rpc.txt
  gate run < examples/reorganisation.txt
  gate run < examples/living-chain.txt
  gate run --explain examples/own-payment.txt
  gate run --strict examples/own-payment.txt

gate run <<'END'
times 101 1000 600
---
peer 1 enter 192.0.2.1
END

docs/FORMATS.md has every line that is read and printed, docs/POLICY.md every
rule; `gate explain` says what a rule or a token means.";

pub(crate) const TRY: &str = "Says whether transactions would be relayed, why not, and with which
fee";

pub(crate) const TRY_HEX: &str =
    "The transactions, in hexadecimal digits, parents first; `-` takes them
from standard input, one a line";

pub(crate) const TRY_COIN: &str = "A coin that they spend: TXID:N,VALUE,HEIGHT,SCRIPT,
with its value in satoshi, and `,cb` behind it if it
is a coinbase's; may be repeated";

pub(crate) const TRY_PSBT: &str = "A PSBT (BIP 174), in binary or in base64, whose coins
they spend, but those of --coin; without HEX its own
transaction is tried, which has to be final; `-` is
standard input";

pub(crate) const TRY_HEIGHT: &str = "The height of the PSBT's coins";

pub(crate) const TRY_POLICY: &str = "The release whose policy decides: core-22, core-25,
core-26, core-27, core-28, core-29, core-30 or
knots-29; core-22 if it is left out";

pub(crate) const TRY_SET: &str = "A setting of the policy, WORD=NUMBER, as
`gate settings` lists them; may be repeated";

pub(crate) const TRY_TIP: &str = "The height of the chain's last block";

pub(crate) const TRY_TIME: &str = "The second at which they are tried, since 1970, which
is the last block's time too; now if it is left out";

pub(crate) const TRY_VERDICT: &str = "What a script interpreter says of every input: ok,
soft or hard; ok if it is left out, since scripts are
not run";

pub(crate) const TRY_JSON: &str = "Answers and explanations in JSON";

pub(crate) const TRY_END: &str = "Exit status:
  0  they would be relayed
  1  one of them is denied; or writing failed, or memory ran out
  2  the words ask for nothing, a coin is none, or the PSBT can't be taken

Examples:
  gate try --tip 100 --psbt examples/payment.psbt --height 90
  gate try --tip 100 --coin 1111111111111111111111111111111111111111111111111111111111111111:0,100000,1,00142222222222222222222222222222222222222222 - < examples/payment.hex

It runs an opening and events as `gate run` does, and prints what `gate run`
prints. docs/FORMATS.md has every line that is read and printed, docs/POLICY.md
every rule; `gate explain` says what a rule or a token means.";

pub(crate) const LANES: &str = "Reads a starting state from standard input, then answers several
callers at once, each on a thread of its own: each line `---` begins
the events of one caller";

pub(crate) const LANES_WORKERS: &str = "How many threads check the inputs of a transaction at once,
from 1 to 64; 2 by default";

pub(crate) const LANES_JOURNAL: &str = "Prints the journal too: each event with its reply, in the
order of the calls";

/// The text of `--explain` for the command that explains lines and no replies.
pub(crate) const EXPLAIN_LINES: &str = "Says on standard error what is wrong with each line that
does not parse or can't stand where it does";

pub(crate) const LANES_END: &str = "Exit status:
  0  the calls of all rounds are settled
  1  they are not, since memory ran out; the input is past a limit; or reading
     or writing failed
  2  the words ask for nothing, or the opening fails

Examples:
  gate lanes --journal < examples/lanes.txt
  gate lanes --workers 4 < examples/lanes.txt
  gate lanes < examples/rounds.txt

gate lanes <<'END'
times 101 1000 600
---
peer 1 enter 192.0.2.1
---
user a rpc 0 {\"method\":\"getmempoolinfo\",\"id\":1}
END

docs/FORMATS.md has every line that is read and printed, docs/POLICY.md every
rule; `gate explain` says what a rule or a token means.";

pub(crate) const AUDIT: &str = "Reads a starting state and a journal from standard input, and says
whether each reply of the journal is the one that the policy gives
to its event, after the events before it";

pub(crate) const AUDIT_EXPLAIN: &str = "Says on standard error what is wrong with each line that
does not parse or can't stand where it does, and which
reply is due where there is another one, with its event";

pub(crate) const AUDIT_EXPLAIN_JSON: &str = "The same as one JSON object a line; --explain=json is
another name of it";

pub(crate) const AUDIT_END: &str = "Exit status:
  0  the journal is legal
  1  it is not, or it is past a limit; or reading or writing failed, or memory
     ran out
  2  the words ask for nothing, or the opening fails

Examples:
  gate audit < examples/journal.txt
  gate audit < examples/rounds-journal.txt

gate audit <<'END'
times 101 1000 600
---
> peer 1 enter 192.0.2.1
< entered none
END

docs/FORMATS.md has every line that is read and printed, docs/POLICY.md every
rule; `gate explain` says what a rule or a token means.";

pub(crate) const RULES: &str = "Prints every rule and word that a reply may name, a line each: when
it fails, what follows, and its name in Bitcoin Core";

pub(crate) const RULES_END: &str = "Exit status:
  0  they are printed
  1  writing failed, or memory ran out
  2  the words ask for nothing

Examples:
  gate rules

docs/POLICY.md has the rules in full, and docs/FORMATS.md every line that is
read and printed.";

pub(crate) const SETTINGS: &str = "Prints every setting of an opening, a line each: its word, the
least and the greatest number, the number if no line says one, and
what the number says";

pub(crate) const SETTINGS_END: &str = "Exit status:
  0  they are printed
  1  writing failed, or memory ran out
  2  the words ask for nothing

Examples:
  gate settings

docs/FORMATS.md has every line of an opening, docs/POLICY.md the rules that
read a setting.";

pub(crate) const EXPLAIN: &str = "Says what a rule or a token of a reply means";

pub(crate) const EXPLAIN_WORD: &str =
    "A rule or a token as a reply prints it, in either case, such as `A36`
or `insufficient fee`; `opening`, `fault` and `call` name the words of
openings, of lanes and of calls";

pub(crate) const EXPLAIN_END: &str = "Exit status:
  0  it is printed
  1  nothing has that name; or writing failed, or memory ran out
  2  the words ask for nothing

Examples:
  gate explain A36
  gate explain insufficient fee

docs/POLICY.md has the rules in full, and docs/FORMATS.md every line that is
read and printed.";
