// What `--help` and `--version` print.

/// Each form of the words, a line each.
pub const HELP: &[u8] = b"\
scenario                    play the scenario that standard input gives
idmap                       number the SIDs that standard input gives
netgroup CONF LDIF NAME     the triples of a netgroup in the entries of an LDIF
innetgr CONF LDIF NAME HOST USER DOMAIN     whether these are in it; `*` asks nothing of a field
sudo CONF LDIF USER         the sudo rules of a user by the entries of an LDIF
directory LDIF HOST:PORT    serve the entries of an LDIF over LDAP
storm N                     load sessions in memory with N requests, 1 to 100000
serve CONF SOCKET [STORE]   serve clients on a Unix socket, by a configuration; STORE keeps over a restart what is known
query SOCKET user NAME      look a user up
query SOCKET uid N          look a user up by number
query SOCKET group NAME     look a group up
query SOCKET gid N          look a group up by number
query SOCKET groups NAME    the numbers of a user's groups
query SOCKET login NAME     log a user in; the password is the first line of standard input
query SOCKET access NAME SERVICE    check whether a user may use a service
query SOCKET offline        the directory is not to be asked any more
query SOCKET online         the directory is to be asked again
query SOCKET stop           end the daemon
cache SOCKET OPTION...      have answers asked anew: -E, -u NAME, -U, -g NAME, -G, as sss_cache(8)
--help                      print this
--version                   print the version
";

/// The name and the version.
pub const VERSION: &[u8] = b"bixethomi 0.1.0\n";
