//! Rows of a line of the plan's text, what stands in its place, and the answer.

// A `;` is the end of a line, `EIGHT` eight empty packets, and `AND_TOP` the end of a layer and a
// layer `top` on the image that follows.

pub const CAPACITY: &str = "||ok
frames = 64||Missing frames
frames = 64|frames = \"64\"|Shape frames
frames = 64|frames = 64.0|Shape frames
frames = 64|frames = 0|Range frames
frames = 64|frames = 1|ok
frames = 64|frames = 65536|ok
frames = 64|frames = 65537|Range frames
frames = 64|frames = -1|Range frames
frames = 64|frames = 64;frames = 64|Toml
frames = 64|frames = |Toml
frames = 64|frames = 64;frame = 1|Unknown frame
frames = 64|zz = 1;Z = 1|Unknown Z
frames = 64|\" a~\" = 1|Unknown  a~
frames = 64|\"\\t\\u001f\\u007f\\u00e9\\\\\" = 1|Unknown \\x09\\x1f\\x7f\\xc3\\xa9\\
workers = 1||Missing workers
workers = 1|workers = true|Shape workers
workers = 1|workers = 0|Range workers
workers = 1|workers = 16|ok
workers = 1|workers = 17|Range workers
idle = 1||Missing idle
idle = 1|idle = [1]|Shape idle
idle = 1|idle = -1|Range idle
idle = 1|idle = 0|ok
idle = 1|idle = 256|ok
idle = 1|idle = 257|Range idle
layers = 1||Missing layers
layers = 1|layers = \"1\"|Shape layers
layers = 1|layers = 0|Range layers
layers = 1|layers = 256|ok
layers = 1|layers = 257|Range layers
";

pub const LIMITS: &str = "layers = 1|layers = 1;uses = \"1\"|Shape uses
layers = 1|layers = 1;uses = 0|Range uses
layers = 1|layers = 1;uses = 1|ok
layers = 1|layers = 1;uses = 64|ok
layers = 1|layers = 1;uses = 65|Range uses
layers = 1|layers = 1;budget = \"1\"|Shape budget
layers = 1|layers = 1;budget = 0|Range budget
layers = 1|layers = 1;budget = 1|ok
layers = 1|layers = 1;budget = 1000000000|ok
layers = 1|layers = 1;budget = 1000000001|Range budget
layers = 1|layers = 1;prepare = \"1\"|Shape prepare
layers = 1|layers = 1;prepare = 0|Range prepare
layers = 1|layers = 1;prepare = 1|ok
layers = 1|layers = 1;prepare = 1000000000|ok
layers = 1|layers = 1;prepare = 1000000001|Range prepare
layers = 1|layers = 1;stack = \"4096\"|Shape stack
layers = 1|layers = 1;stack = 0|Range stack
layers = 1|layers = 1;stack = 4095|Range stack
layers = 1|layers = 1;stack = 4096|ok
layers = 1|layers = 1;stack = 4097|Range stack
layers = 1|layers = 1;stack = 8191|Range stack
layers = 1|layers = 1;stack = 8192|ok
layers = 1|layers = 1;stack = 16777216|ok
layers = 1|layers = 1;stack = 16781312|Range stack
layers = 1|layers = 1;clock = \"0\"|Shape clock
layers = 1|layers = 1;clock = -1|Range clock
layers = 1|layers = 1;clock = 0|ok
layers = 1|layers = 1;clock = 9223372036854775807|ok
layers = 1|layers = 1;clock = 9223372036854775808|Toml
layers = 1|layers = 1;serve = \"1\"|Shape serve
layers = 1|layers = 1;serve = 0|Range serve
layers = 1|layers = 1;serve = 1|ok
layers = 1|layers = 1;serve = 4096|ok
layers = 1|layers = 1;serve = 4097|Range serve
[[layer]]|[layer]|Shape layer
[[function]]|[function]|Shape function
";

pub const LAYERS: &str = "name = \"count\"||Missing name
name = \"count\"|name = 1|Shape name
name = \"count\"|name = \"Count\"|Name
name = \"count\"|name = \"kount\"|Name
name = \"count\"|name = \"abcdefghijklmnopqrstuvwxyz0123456\"|Name
image = \"count.elf\"||Missing image
image = \"count.elf\"|image = 1|Shape image
image = \"count.elf\"|below = 1|Shape below
image = \"count.elf\"|image = 1;below = 1|Missing image
image = \"count.elf\"|image = \"count.elf\";below = \"x\"|Missing image
image = \"count.elf\"|below = \"x\"|Below
image = \"count.elf\"|below = \"count\"|Below
image = \"count.elf\"|image = \"none.elf\"|File
image = \"count.elf\"|image = \"short.elf\"|Image Short
trigger = 65544||Missing trigger
trigger = 65544|trigger = true|Shape trigger
trigger = 65544|trigger = 65546|Range trigger
trigger = 65544|trigger = 4092|Range trigger
trigger = 65544|trigger = 4096|ok
trigger = 65544|trigger = 274877906940|ok
trigger = 65544|trigger = 274877906944|Range trigger
trigger = 65544|trigger = 65544;colour = 1|Unknown colour
trigger = 65544|trigger = 65544;packets = 1|Shape packets
trigger = 65544|trigger = 65544;packets = [1]|Shape packets
";

pub const FUNCTIONS: &str = "trigger = 65544|trigger = 65544;packets = [\"0\"]|Shape packets
trigger = 65544|trigger = 65544;packets = [\"0g\"]|Shape packets
trigger = 65544|trigger = 65544;packets = []|ok
trigger = 65544|trigger = 65544;packets = [\"\", \"aB\"]|ok
trigger = 65544|trigger = 65544;packets = [EIGHT,EIGHT]|ok
trigger = 65544|trigger = 65544;packets = [EIGHT,EIGHT,\"\"]|Range packets
trigger = 65544|trigger = 65544;packets = [EIGHT,EIGHT,\"0\"]|Shape packets
trigger = 65544|trigger = 65546;packets = [\"0\"]|Range trigger
name = \"count\" # f||Missing name
name = \"count\" # f|name = []|Shape name
name = \"count\" # f|name = \"\"|Name
name = \"count\" # f|name = \"_a\"|Name
name = \"count\" # f|name = \"1a\"|Name
name = \"count\" # f|name = \"a b\"|Name
name = \"count\" # f|name = \"aZ\"|Name
name = \"count\" # f|name = \"a_-09z\"|ok
name = \"count\" # f|name = \"abcdefghijklmnopqrstuvwxyz012345\"|ok
name = \"count\" # f|name = \"abcdefghijklmnopqrstuvwxyz0123456\"|Name
layer = \"count\"||Missing layer
layer = \"count\"|layer = 1|Shape layer
layer = \"count\"|layer = \"kount\"|Name
layer = \"count\"|layer = \"count\";image = \"x\"|Unknown image
layer = \"count\"|layer = \"count\";[[function]];name = \"count\";layer = \"count\"|Name
layer = \"count\"|layer = \"count\";[[function]];name = \"more\";layer = \"count\"|ok
layer = \"count\"|layer = \"count\";[[layer]];name = \"count\";below = \"x\";trigger = 4096|Name
layer = \"count\"|layer = \"count\";[[layer]];name = \"top\";below = \"x\";trigger = 4096|Below
layer = \"count\"|layer = \"count\";[[layer]];name = \"top\";below = \"count\";trigger = 4096|ok
image = \"count.elf\"|below = \"top\"AND_TOP\"none.elf\"|Below
image = \"count.elf\"|image = \"short.elf\"AND_TOP\"none.elf\"|Image Short
image = \"count.elf\"|image = \"none.elf\"AND_TOP\"short.elf\"|File
";
