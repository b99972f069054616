//! What HELP says of SENTINEL, CLIENT and COMMAND.

ghost use Rattle.std.specs.Prelude.{◌≡◌, OnOk};
ghost use Rattle.resp2.specs.Framing.Frame.{spelling};
ghost use Rattle.client_commands.specs.Helps.{told_lines, sentinel_help, client_help, command_help};

use crate::refusals::say;
use ballot_law::NoMemory;
use resp2::OutText;

const SENTINEL_HELP: &[u8] = b"*32\r\n\
+SENTINEL <subcommand> [<arg> [value] [opt] ...]. Subcommands are:\r\n\
+CKQUORUM <master-name>\r\n\
+    Check if the current Sentinel configuration is able to reach the quorum\r\n\
+    needed to failover a master and the majority needed to authorize the\r\n\
+    failover.\r\n\
+CONFIG GET <param>\r\n\
+    Get global Sentinel configuration parameter.\r\n\
+GET-MASTER-ADDR-BY-NAME <master-name>\r\n\
+    Return the ip and port number of the master with that name.\r\n\
+FAILOVER <master-name>\r\n\
+FLUSHCONFIG\r\n\
+    Force Sentinel to rewrite its configuration on disk, including the current\r\n\
+    Sentinel state.\r\n\
+INFO-CACHE <master-name>\r\n\
+    Return last cached INFO output from masters and all its replicas.\r\n\
+IS-MASTER-DOWN-BY-ADDR <ip> <port> <current-epoch> <runid>\r\n\
+    Check if the master specified by ip:port is down from current Sentinel's\r\n\
+    point of view.\r\n\
+MASTER <master-name>\r\n\
+    Show the state and info of the specified master.\r\n\
+MASTERS\r\n\
+    Show a list of monitored masters and their state.\r\n\
+MYID\r\n\
+    Return the ID of the Sentinel instance.\r\n\
+PENDING-SCRIPTS\r\n\
+    Get pending scripts information.\r\n\
+REPLICAS <master-name>\r\n\
+    Show a list of replicas for this master and their state.\r\n\
+SENTINELS <master-name>\r\n\
+    Show a list of Sentinel instances for this master and their state.\r\n\
+HELP\r\n\
+    Prints this help.\r\n";

const CLIENT_HELP: &[u8] = b"*33\r\n\
+CLIENT <subcommand> [<arg> [value] [opt] ...]. Subcommands are:\r\n\
+GETNAME\r\n\
+    Return the name of the current connection.\r\n\
+ID\r\n\
+    Return the ID of the current connection.\r\n\
+INFO\r\n\
+    Return information about the current client connection.\r\n\
+KILL <ip:port>\r\n\
+    Kill connection made from <ip:port>.\r\n\
+KILL <option> <value> [<option> <value> [...]]\r\n\
+    Kill connections. Options are:\r\n\
+    * ADDR (<ip:port>|<unixsocket>:0)\r\n\
+      Kill connections made from the specified address\r\n\
+    * LADDR (<ip:port>|<unixsocket>:0)\r\n\
+      Kill connections made to specified local address\r\n\
+    * TYPE (NORMAL|MASTER|REPLICA|PUBSUB)\r\n\
+      Kill connections by type.\r\n\
+    * USER <username>\r\n\
+      Kill connections authenticated by <username>.\r\n\
+    * SKIPME (YES|NO)\r\n\
+      Skip killing current connection (default: yes).\r\n\
+LIST [options ...]\r\n\
+    Return information about client connections. Options:\r\n\
+    * TYPE (NORMAL|MASTER|REPLICA|PUBSUB)\r\n\
+      Return clients of specified type.\r\n\
+REPLY (ON|OFF|SKIP)\r\n\
+    Control the replies sent to the current connection.\r\n\
+SETNAME <name>\r\n\
+    Assign the name <name> to the current connection.\r\n\
+NO-EVICT (ON|OFF)\r\n\
+    Protect current client connection from eviction.\r\n\
+HELP\r\n\
+    Prints this help.\r\n";

const COMMAND_HELP: &[u8] = b"*17\r\n\
+COMMAND <subcommand> [<arg> [value] [opt] ...]. Subcommands are:\r\n\
+(no subcommand)\r\n\
+    Return details about all Redis commands.\r\n\
+COUNT\r\n\
+    Return the total number of commands in this Redis server.\r\n\
+LIST\r\n\
+    Return a list of all commands in this Redis server.\r\n\
+INFO [<command-name> ...]\r\n\
+    Return details about multiple Redis commands.\r\n\
+    If no command names are given, documentation details for all\r\n\
+    commands are returned.\r\n\
+DOCS [<command-name> ...]\r\n\
+    Return documentation details about multiple Redis commands.\r\n\
+    If no command names are given, documentation details for all\r\n\
+    commands are returned.\r\n\
+HELP\r\n\
+    Prints this help.\r\n";

/// The answer to SENTINEL HELP.
pub(crate) fn sentinel_help(out: &mut OutText) -> Result<(), NoMemory>
    ensures { OnOk result (out.new ≡ spelling (told_lines sentinel_help)) }
{
    say(out, SENTINEL_HELP)
}

/// The answer to CLIENT HELP.
pub(crate) fn client_help(out: &mut OutText) -> Result<(), NoMemory>
    ensures { OnOk result (out.new ≡ spelling (told_lines client_help)) }
{
    say(out, CLIENT_HELP)
}

/// The answer to COMMAND HELP.
pub(crate) fn command_help(out: &mut OutText) -> Result<(), NoMemory>
    ensures { OnOk result (out.new ≡ spelling (told_lines command_help)) }
{
    say(out, COMMAND_HELP)
}
