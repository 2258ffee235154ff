//! The texts of `--help` and `--version`.

/// The version for `--version`: the newest version of CHANGELOG.md.
pub(crate) const VERSION: &str = "1.0.0";

/// The text above the usage.
pub(crate) const ABOUT: &str = "\
Edits an MLIR module in generic text form by a script, and reports analyses that
every edit keeps up to date.

Standard input, or the file MODULE, is the module, a line that is exactly
`// -----`, and the script. Without such a line there is no script. Replies, the
module and the rows of analyses go to standard output.";

/// The help of MODULE.
pub(crate) const MODULE: &str =
    "The module, with or without a script after it; `-` is standard input";

/// The help of `--script`.
pub(crate) const SCRIPT: &str = "A script to run after the input's; may be repeated";

/// The help of `--command`.
pub(crate) const COMMAND: &str = "A command to run after all scripts; may be repeated";

/// The help of `--patterns`.
pub(crate) const PATTERNS: &str = "A file of patterns, one a line; may be repeated";

/// The help of `--output`.
pub(crate) const OUTPUT: &str = "Write the output to FILE, not to standard output";

/// The help of `--brief`.
pub(crate) const BRIEF: &str = "Leave out the module and all rows after each edit";

/// The help of `--limit`.
pub(crate) const LIMIT: &str = "The most rewrites of a plain `canon`";

/// The default of `--limit`.
pub(crate) const DEFAULT_LIMIT: &str = "1000";

/// The help of `--opaque`.
pub(crate) const OPAQUE: &str = "Keep unknown types and attributes as their texts";

/// The help of `--explain`.
pub(crate) const EXPLAIN: &str = "Add to each refusal what it is about";

/// The help of `--strict`.
pub(crate) const STRICT: &str = "Status 1 if no check proves a pattern that rewrites";

/// The help of `--analyses`.
pub(crate) const ANALYSES: &str = "Attach these kinds, as `uses,dead`";

/// The item of `--analyses` for all kinds, which is the default.
pub(crate) const ALL: &str = "all";

/// The item of `--analyses` for no kind.
pub(crate) const NONE: &str = "none";

/// The help of `--format`.
pub(crate) const FORMAT: &str = "`text`, or `json`: an object a line";

/// The help of `--split-input-file`.
pub(crate) const SPLIT: &str = "Run the scripts over each module between dividers";

/// The format of text lines, which is the default.
pub(crate) const TEXT: &str = "text";

/// The JSON format.
pub(crate) const JSON: &str = "json";

/// The help of `--interactive`.
pub(crate) const INTERACTIVE: &str = "Answer each line at once, and end it by an empty line";

/// The text below the options.
pub(crate) const AFTER: &str = "\
Commands, one a line; empty lines and lines that begin with `//` are skipped and
not counted.

To look:
  print                      print the module
  print ids                  print the module, with the number of its operation
                             in a comment at the end of each line
  report KIND                print the rows of an analysis
  report KIND of #N          print only the rows about operation #N, or about a
                             value that belongs to it
  report KIND of VALUE       print only the rows about VALUE
  show all                   print all operations as JSON objects, a line each
                             (docs/JSON.md)
  show #N                    print operation #N as a JSON object
  show #N COUNT              the same, and the operations after it in pre-order,
                             at most COUNT in all
  why #N                     for each rule of its name, say whether the rule
                             applies at operation #N, or why it doesn't, as `why
                             #3 4 drop-zero second-not-zero`
  why #N RULE                the same, for one rule
  patterns                   print the defined patterns, and what the last check
                             of each answered

To edit:
  set-operand #N K VALUE     make VALUE operand K of operation #N
  replace VALUE VALUE        use the second VALUE in place of the first one
                             everywhere
  insert PLACE OPERATION     insert OPERATION, the rest of the line, with the
                             operations inside it
  move #N PLACE              move operation #N, with the operations inside it
  erase #N                   remove operation #N, with the operations inside it
  set-attr #N KEY ATTRIBUTE  set the entry KEY of operation #N to ATTRIBUTE, the
                             rest of the line
  drop-attr #N KEY           remove the entry KEY of operation #N

To rewrite:
  canon                      rewrite the first operation to which one of the
                             rules 1 to 24 applies (docs/CANONICALIZE.md) by the
                             lowest such rule; repeat until no rule applies, or
                             `--limit` times
  canon limit N              the same, at most N times
  canon at #N                rewrite operation #N alone, by the lowest of these
                             rules that applies there; repeat
  canon at #N limit N        the same, at most N times
  rewrite RULES              the same as `canon`, but by RULES of 1 to 24 and
                             user patterns, which are tried at an operation in
                             this order
  rewrite RULES limit N      the same, at most N times
  rewrite RULES proved       the same, but refused if no check proves one of the
                             patterns for the module; `trace` or `fired`, and
                             `limit` may follow
  canon only RULES           the same as `rewrite RULES`
  canon only RULES limit N   the same as `rewrite RULES limit N`
  canon trace                the same as `canon`, and print each rewrite, as
                             `rewrote 4 drop-zero #3 erased #3`
  canon trace limit N        the same, at most N times
  rewrite RULES trace        the same as `rewrite RULES`, and print each rewrite
  rewrite RULES trace limit N
                             the same, at most N times
  canon only RULES trace     the same as `rewrite RULES trace`
  canon only RULES trace limit N
                             the same as `rewrite RULES trace limit N`
  canon fired                the same as `canon`, and if it stops by its limit,
                             print how many of its last 100 rewrites each rule
                             made, as `fired 4 drop-zero 37`
  canon fired limit N        the same, at most N times
  rewrite RULES fired        the same as `rewrite RULES`, with such counts of
                             rules and user patterns
  rewrite RULES fired limit N
                             the same, at most N times
  canon only RULES fired     the same as `rewrite RULES fired`
  canon only RULES fired limit N
                             the same as `rewrite RULES fired limit N`
  convert MODE CLAUSES       replace operations that aren't legal for a target
                             by rules, one after another, and reconcile casts
                             between types, or change nothing (docs/CONVERT.md).
                             MODE is `partial`, or `full`, in which each
                             operation has to be legal in the end
  convert trace MODE CLAUSES
                             the same, and print each applied rule, like `canon
                             trace`; or why an operation can't be made legal, as
                             `stays #2 26 expand-difference other-operation`
  sweep                      remove the private symbols that nothing reaches,
                             with the operations inside them; all or none of
                             them
  apply RULE #N              apply one of the rules 1 to 30, or a user pattern,
                             at operation #N

User patterns, which a rollback keeps (docs/PATTERNS.md):
  pattern PATTERN            define PATTERN, the rest of the line
  pattern! PATTERN           the same, in place of the pattern of its name, if
                             there is one
  check NAME                 try the pattern NAME for all values at all widths
                             from 1 to 8, or to the largest width at which its
                             variables have no more than 16 bits; for many right
                             patterns prove that they hold at every width
  check NAME width W         the same, but only at widths from 1 to W
  check NAME width W sampled
                             try only edge values and random values, at types of
                             W bits, of half as many and of a quarter; W is at
                             most 128
  check all                  the same as `check NAME` for each pattern
  forget NAME                remove the pattern NAME

Marks, at most 16 open at once:
  begin                      mark the current module
  commit                     drop the newest mark
  rollback                   restore the module of the newest mark, and drop the
                             mark; a `detach` or an `attach` is not undone

Analyses, which are all attached at the start, or those of `--analyses LIST`:
kinds with commas, or `none`:
  detach KIND                drop an analysis
  attach KIND                compute an analysis that isn't attached, and report
                             it last
  resync KIND                compute an analysis again

To expect a refusal:
  expect REFUSAL COMMAND     run COMMAND, the rest of the line, which has to be
                             refused so; any other reply is an error

Operations are numbered in the order of the text, and the module around them is
#0. An inserted operation has the next free number, and those inside it the
next.
  VALUE      %vN.K, result K of #N, or %aN.R.K, argument K of the block of
             region R of #N; names of the text, as %c, are not used
  PLACE      `before #N`, `after #N`, or `start #N R` or `end #N R`, of the
             block of region R of #N
  OPERATION  one line in generic form, with the names of values as above
  RULE       the number of a rule, or its word, as 4 or drop-zero; or the name
             of a pattern
  RULES      rules with commas and no blanks, as 4,drop-one; 4-9 are the rules
             4 to 9, and `canon` is all from 1 to 24
  REFUSAL    the number of a refusal, or its word, as 22 or HasUses
  KEY        a bare identifier or a string literal; it names a property if the
             operation's kind has it or the operation lists it, otherwise an
             attribute
  PATTERN    a name, and the old and the new operations, as `half
             arith.divui(%a, 2) => arith.shrui(%a, 1)`
  ATTRIBUTE  as in a text: a string has quotes, and `5` is `5 : i64`
  CLAUSES    any of these, each at most once: `legal NAMES`, `illegal NAMES`,
             and `dynamic NAMES`, legal unless a type of theirs is index; `rules
             NUMBERS`, of 2 and 25 to 30, tried in this order; and `depth N`,
             how many rules may follow from one another, at most 16. NAMES and
             NUMBERS have commas and no blanks, as `rules 27,26`

Each command has a reply that begins with its number: `1 ok`. An insert has the
number of the new operation, as `1 ok #4`. A sweep has the number of removed
symbols, as `1 swept 2`. A `canon` or a `rewrite` has the number of rewrites, as
`1 converged 3`, or `1 limit 3` if a rule still applies. With `trace` a line for
each rewrite names the rule, the operation, what was made, if anything, and
whether the operation was erased, as `rewrote 11 add-negative #5 made #7,#8
erased #5`. With `fired`, a reply `1 limit 300` has a line below it for each
rule and pattern of the last 100 rewrites, in the order of their first rewrites
among these, as `fired 4 drop-zero 37`. A `convert` has the number of applied
rules, as `1 converted 2`, and with `trace` such a line for each. An `apply` has
`1 applied 1`, or `1 applied 0` if the rule doesn't apply. A `check` has the
width up to which the pattern is right, as `1 holds 8`, or `1 holds` if it is
right at every width; `1 empty 8` if it applies nowhere up to that width; `1
fails 2` if it is wrong there, and then the values, one a line; and `1 unrefuted
32` if no value that was tried refutes it. A `check all` has the answer for the
first pattern that is wrong, or `1 ok`, and a line for each pattern, as `checked
half holds 8`. A refused command, as `1 refused 23 NotVisible`, changes nothing,
and the next command runs. `1 refused 2 Unexpected at 4` has the byte at which
the ATTRIBUTE, the OPERATION or the PATTERN is wrong, and `1 refused 51
NotLegalised #3` the operation that a `convert` can't make legal. If a line
expects a refusal and has another reply, `1 expected 22 HasUses` follows the
reply.

An `apply` or a `rewrite` by patterns names below its reply, and above a trace,
each pattern that no check proves for the module. A check has to answer `holds`,
or `holds 8` if no value of the module has a type of more than 8 bits, or index.
The line has what the last check answered, as `unproved half unrefuted 8`, or
`unproved half unchecked`. With `--strict` such a line makes the status 1. With
`proved` a `rewrite` with such a line is refused (61 NotProved).

With `--explain` a refusal ends with the operations and values that it is about,
as `1 refused 22 HasUses about #3 #5`, or with the unsupported MLIR construct,
as `1 refused 13 LeftOut at 14 about float-type` (docs/REFUSALS.md).

If MODULE is a file and the program refuses it, a line on standard error says
where and why, as `m.mlir:2:5: 3 UnknownValue: found `%x`, expected ..`. Without
any command a line says how many operations were read.

With `--format json` each of these lines, of the module's lines and of the rows
is an object, as {\"about\":[\"#3\"],\"n\":1,\"refused\":22,\"word\":\"HasUses\"}
(docs/JSON.md), and refusals are explained. With `--interactive` the object
{\"end\":true} ends an answer.

Kinds:
  uses         the uses of each value: the value, the operation that uses it,
               and the number of the operand
  symbols      the symbols that are defined, what each reference to one resolves
               to, and the calls that don't fit
  diagnostics  what the verifier finds wrong: the operation, and the number of
               the rule that it breaks (docs/VERIFIER.md)
  effects      what operations do to memory: `unknown`, `allocate`, `free`,
               `read`, `write`
  dead         the operations that may be erased: no result is used, and nothing
               is written or freed
  constants    the values that are known without running, each with its
               attribute
  unreached    the private symbols that nothing reaches: the operation, and its
               name

Grammar of patterns:
  pattern NAME TERM => TERM [where CONDITION {, CONDITION}]
  TERM      ::= OP [< PREDICATE >] ( TERM {, TERM} ) [: TYPE]   an operation
              | %NAME [: TYPE]                                  a value
              | NUMBER [: TYPE]                                 a constant
  NUMBER    ::= [-] INTEGER | true | false | NAME
              | FN ( NUMBER {, NUMBER} )    right of =>, and in conditions
  FN        ::= add sub mul and or xor neg not log2 width
  CONDITION ::= power_of_two(NUMBER) | PREDICATE(NUMBER, NUMBER)
              | narrower(TYPE, TYPE)
  PREDICATE ::= eq ne slt sle sgt sge ult ule ugt uge
  OP        ::= the name of an operation, as arith.addi
  TYPE      ::= iN | index | NAME

Exit status:
  0  each command was accepted, or refused as it was expected to be; also of
     --help
  1  a command was refused, or not as it was expected to be, or an analysis that
     was to be attached, or a check failed; docs/REFUSALS.md says what each
     number of a refusal means
  2  the command line or a file that it names is wrong, as by a pattern that is
     refused, or memory ran out at the start, or for an object of JSON
  3  the module was refused, as in `module refused 3 UnknownValue at 9`: the
     number and word of the reason, and the byte of the error
  4  a read or a write failed; with `--interactive` also if memory ran out for a
     line, or a line is longer than 16 MiB

Custom forms are not read: print them with `mlir-opt --mlir-print-op-generic`
first, or open them with `mlir-work`.

Example:
  $ mlir_work --brief <<'END'
  %a = \"arith.constant\"() <{value = 1 : i32}> : () -> i32
  %b = \"arith.constant\"() <{value = 2 : i32}> : () -> i32
  \"test.pair\"(%a, %b) : (i32, i32) -> ()
  // -----
  begin
  set-operand #3 1 %v1.0
  report dead
  rollback
  report uses
  END
  1 ok
  2 ok
  3 ok
  #2
  4 ok
  5 ok
  %v1.0 #3 0
  %v2.0 #3 1";
