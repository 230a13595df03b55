//! The scripts that are measured.

/// A function each: an integer loop, calls, objects that are made, a method, the same among 4,000 other objects, a method
/// of a host object, a global, an array, calls by an interface over an array, and a quest as a game would have it.
pub const SCRIPTS: &str = "
int total = 0;
int sum(int n) { int s = 0; for (int i = 0; i < n; i++) { s += i & 7; } return s; }
int fib(int n) { if (n < 2) { return n; } return fib(n - 1) + fib(n - 2); }
class Point { int x; int y; }
int churn(int n) { int s = 0; for (int i = 0; i < n; i++) { Point@ p = Point(); p.x = i; s += p.x & 3; } return s; }
class Account { int gold; int add(int more) { gold += more; return gold; } }
int method(int n) { Account@ a = Account(); int s = 0; for (int i = 0; i < n; i++) { s += a.add(i & 3); } return s; }
int many(int n)
{
    array<Account@>@ all = array<Account@>(4000);
    for (int i = 0; i < 4000; i++) { @all[i] = Account(); }
    Account@ a = all[2000];
    int s = 0;
    for (int i = 0; i < n; i++) { s += a.add(i & 3); }
    return s;
}
int host(int n) { Counter@ c = Counter(0); int s = 0; for (int i = 0; i < n; i++) { s += c.add(i & 3); } return s; }
int global(int n) { total = 0; for (int i = 0; i < n; i++) { total += i & 7; } return total; }
int sieve(int n)
{
    array<bool>@ composite = array<bool>(n);
    int primes = 0;
    for (int i = 2; i < n; i++) {
        if (composite[i]) { continue; }
        primes++;
        for (int j = i + i; j < n; j += i) { composite[j] = true; }
    }
    return primes;
}
interface Shape { int area(int scale); }
class Square : Shape { int side; Square(int length) { side = length; } int area(int scale) { return side * scale; } }
class Strip : Shape { int width; Strip(int length) { width = length; } int area(int scale) { return width + scale; } }
int dispatch(int n)
{
    array<Shape@>@ all = array<Shape@>(8);
    for (int i = 0; i < 8; i++) {
        if ((i & 1) == 0) { @all[i] = Square(i); } else { @all[i] = Strip(i); }
    }
    int s = 0;
    for (int i = 0; i < n; i++) { s += all[i & 7].area(i); }
    return s;
}
int roll(int sides) { total = (total * 1103 + 12345) & 65535; return (total >> 4) % sides; }
class Item
{
    int kind;
    int count;
    Item(int which, int many) { kind = which; count = many; }
    bool take(int many)
    {
        if (many > count) { return false; }
        count -= many;
        return true;
    }
}
class Bag
{
    array<Item@>@ items;
    int weight;
    Bag() { @items = array<Item@>(); }
    Item@ find(int kind)
    {
        for (uint i = 0; i < items.length(); i++) {
            if (items[i].kind == kind) { return items[i]; }
        }
        return null;
    }
    void add(int kind, int many)
    {
        Item@ item = find(kind);
        if (item is null) {
            items.insertLast(Item(kind, many));
        } else {
            item.count += many;
        }
        weight += many;
    }
    bool remove(int kind, int many)
    {
        Item@ item = find(kind);
        if (item is null) { return false; }
        if (!item.take(many)) { return false; }
        weight -= many;
        return true;
    }
}
class Player
{
    Bag@ bag;
    int gold;
    int level;
    int experience;
    int health;
    Player(int start) { @bag = Bag(); gold = start; level = 1; health = 20; }
    void learn(int points)
    {
        experience += points;
        while (experience >= level * 10) {
            experience -= level * 10;
            level++;
            health += 5;
        }
    }
    bool pay(int price)
    {
        if (gold < price) { return false; }
        gold -= price;
        return true;
    }
}
interface Goal { bool reached(Player@ player); void progress(Player@ player, int event, int amount); }
class Hunt : Goal
{
    int wanted;
    int slain;
    Hunt(int many) { wanted = many; }
    bool reached(Player@ player) { return slain >= wanted; }
    void progress(Player@ player, int event, int amount)
    {
        if (event != 1) { return; }
        slain += amount;
        player.learn(amount);
    }
}
class Gather : Goal
{
    int kind;
    int wanted;
    Gather(int which, int many) { kind = which; wanted = many; }
    bool reached(Player@ player)
    {
        Item@ item = player.bag.find(kind);
        return !(item is null) && item.count >= wanted;
    }
    void progress(Player@ player, int event, int amount)
    {
        if (event == 2) { player.bag.add(kind, amount); }
    }
}
class Quest
{
    array<Goal@>@ goals;
    int reward;
    bool done;
    Quest(int gold) { @goals = array<Goal@>(); reward = gold; }
    void happen(Player@ player, int event, int amount)
    {
        if (done) { return; }
        bool all = true;
        for (uint i = 0; i < goals.length(); i++) {
            goals[i].progress(player, event, amount);
            if (!goals[i].reached(player)) { all = false; }
        }
        if (all) {
            done = true;
            player.gold += reward;
        }
    }
}
Quest@ offer(int size)
{
    Quest@ quest = Quest(size * 5);
    quest.goals.insertLast(Hunt(size));
    quest.goals.insertLast(Gather(size & 3, size));
    return quest;
}
int quest(int n)
{
    total = 1;
    Player@ player = Player(50);
    Quest@ now = offer(3);
    int finished = 0;
    for (int day = 0; day < n; day++) {
        int event = roll(4);
        switch (event) {
            case 0: player.health += 1; break;
            case 1: player.health -= roll(2); break;
            case 2: player.learn(1); break;
            default: if (player.pay(3)) { player.bag.add(roll(6), 1); }
        }
        now.happen(player, event, 1 + roll(2));
        if (now.done) {
            finished++;
            @now = offer(2 + (finished & 7));
        }
        if (player.bag.weight > 40) { player.bag.remove(roll(6), 2); }
    }
    return finished * 1000 + player.level * 100 + (player.gold & 63);
}
";
